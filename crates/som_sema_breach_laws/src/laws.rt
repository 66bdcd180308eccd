//! The law of what is told of texts that break a rule.

ghost use Rattle.som_ast.specs.declared.interface.IdlInterface.{IdlInterface};
ghost use Rattle.som_model.specs.Rules.{RuleBreach};
ghost use Rattle.som_model.specs.declared.key.Module.{Module};
ghost use Rattle.som_model.specs.declared.program.Interface.{Interface};
ghost use Rattle.som_sema.specs.Building.{texts_breach};
ghost use Rattle.som_sema_breach_laws.specs.Telling.{IsFirstTold};
ghost use Rattle.std.specs.Prelude.{◌≡◌, ◌↔◌, List as Seq, Some};

/// A breach of the rules S1 to S12 is told of interfaces exactly where it is the first one: of the first rule
/// that one of them breaks, the first interface that breaks it, and the first of its members that does. There
/// is one such breach at most.
pub fn first_told_law()
    ensures told { (m : Module) (base : Interface) (is : Seq IdlInterface) (b : RuleBreach) →
        (texts_breach m base is ≡ Some b) ↔ IsFirstTold m base is b }
    ensures one { (m : Module) (base : Interface) (is : Seq IdlInterface) (a b : RuleBreach) →
        IsFirstTold m base is a → IsFirstTold m base is b → a ≡ b }
{}
