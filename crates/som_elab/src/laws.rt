//! The law that what the front end builds keeps every rule of releases and programs.

ghost use Rattle.som_ast.specs.declared.body.BlockText.{BlockText as MainText};
ghost use Rattle.som_ast.specs.declared.body.BodyText.{BodyText};
ghost use Rattle.som_elab.specs.Elaboration.{elaborated_program, elaborated_release};
ghost use Rattle.som_ast.specs.declared.interface.IdlInterface.{IdlInterface};
ghost use Rattle.som_model.specs.Classes.{interface_classes};
ghost use Rattle.som_model.specs.Conforming.{ProgramOk, ReleaseOk};
ghost use Rattle.som_model.specs.declared.program.ClientProgram.{ClientProgram};
ghost use Rattle.som_model.specs.declared.program.Interface.{Interface};
ghost use Rattle.som_model.specs.declared.program.Release.{Release};
ghost use Rattle.som_verify_classes.specs.Faces.{faces_breach};
ghost use Rattle.std.specs.Prelude.{◌≡◌, List as Seq, None, Ok};

/// The release that texts stand for conforms, and so does a client program, over a base whose faces break no rule.
pub fn conforming_law()
    ensures release { (is : Seq IdlInterface) (bs : Seq BodyText) (r : Release) → elaborated_release is bs ≡ Ok r → ReleaseOk r }
    ensures program { (base : Interface) (is : Seq IdlInterface) (bs : Seq BodyText) (main : MainText) (p : ClientProgram) →
        faces_breach (interface_classes base) ≡ None → elaborated_program base is bs main ≡ Ok p → ProgramOk p }
{}
