//! The law of limits: what the check of a class against its limits says.

ghost use Rattle.som_sema_drafts.specs.Drafts.{InterfaceDraft};
ghost use Rattle.som_elab_methods.specs.Limits.{limit_passed};
ghost use Rattle.som_elab_methods.specs.PlainLimits.{LimitsKept};
ghost use Rattle.std.specs.Prelude.{◌≡◌, ◌↔◌, List as Seq, None};

/// No limit is passed exactly where each count of each class is within its limit.
pub fn limits_law()
    ensures { (ds : Seq InterfaceDraft) → (limit_passed ds ≡ None) ↔ LimitsKept ds }
{}
