//! Laws of the client that shows a breach.

ghost use Rattle.som_model.specs.Classes.{interface_classes};
ghost use Rattle.som_model.specs.Compatible.{CompatBreach, first_break};
ghost use Rattle.som_model.specs.Conforming.{faces_breach};
ghost use Rattle.som_model.specs.declared.program.Interface.{Interface};
ghost use Rattle.som_witness.specs.Program.{IsW, w_name, witness_program};
ghost use Rattle.som_witness.specs.Verdicts.{NeverBinds, ShowsBreach};
ghost use Rattle.std.specs.Prelude.{◌≡◌, ◌≢◌, ◌<◌, ◌^◌, length, None, Some};

/// Where the first breach isn't of the version alone, no release with the new interface can be used by the
/// client that shows it, by what that client's own class and main name.
pub fn refused_law()
    ensures { (old new : Interface) (b : CompatBreach) → faces_breach (interface_classes old) ≡ None → faces_breach (interface_classes new) ≡ None →
        first_break old new ≡ Some b → b.rule ≢ 2 → NeverBinds (witness_program old new b) new }
{}

/// And that client conforms, with the old interface as what it was compiled against: so it shows the breach.
pub fn witness_law()
    ensures { (old new : Interface) (b : CompatBreach) → length old.classes < 2 ^ 64 → faces_breach (interface_classes old) ≡ None → faces_breach (interface_classes new) ≡ None →
        first_break old new ≡ Some b → b.rule ≢ 2 → ShowsBreach (witness_program old new b) old new }
{}

/// The name of the client's class is W with the least number with which it is no class name of the old
/// interface.
pub fn w_name_law()
    ensures { (old : Interface) → length old.classes < 2 ^ 64 → IsW old (w_name old) }
{}
