//! What is told of texts, from the limit of classes to the last body.

ghost use Rattle.som_ast.specs.declared.body.BlockText.{BlockText};
ghost use Rattle.som_ast.specs.declared.body.BodyText.{BodyText};
ghost use Rattle.som_ast.specs.declared.interface.IdlInterface.{IdlInterface};
ghost use Rattle.som_elab.specs.Blocks.{Refusal};
ghost use Rattle.som_elab.specs.Elaboration.{elaborated_program, elaborated_release, nothing_before};
ghost use Rattle.som_elab_breach_laws.specs.Telling.{IsFirstTold, IsFirstToldOfProgram};
ghost use Rattle.som_model.specs.declared.key.Module.TheVariants as modules;
ghost use Rattle.som_model.specs.declared.program.Interface.{Interface};
ghost use Rattle.std.specs.Prelude.{◌≡◌, ◌↔◌, List as Seq, Err};

/// A refusal is told of the texts of a library, or of a client and its main, exactly where it is the first
/// one: of the first rule on bodies that they break, the first body or class that breaks it and the first of
/// its members; and of what single bodies break, that of the first class with such a body, and of its first
/// one, the introduced methods before the overridden ones, and main's last.
pub fn first_body_told_law()
    ensures library { (is : Seq IdlInterface) (bs : Seq BodyText) (r : Refusal) →
        (elaborated_release is bs ≡ Err r) ↔ IsFirstTold modules.Library nothing_before is bs r }
    ensures client { (base : Interface) (is : Seq IdlInterface) (bs : Seq BodyText) (main : BlockText) (r : Refusal) →
        (elaborated_program base is bs main ≡ Err r) ↔ IsFirstToldOfProgram base is bs main r }
{}
