//! Laws of what texts say: there is one expression, one block and one program that they say.

ghost use Rattle.som_ast.specs.declared.body.BlockText.{BlockText};
ghost use Rattle.som_ast.specs.declared.body.BodyText.{BodyText};
ghost use Rattle.som_ast.specs.declared.expression.ExprText.{ExprText};
ghost use Rattle.som_ast.specs.declared.interface.IdlInterface.{IdlInterface};
ghost use Rattle.som_elab_body.specs.Expressions.{Among};
ghost use Rattle.som_elab_body.specs.Locals.{Names};
ghost use Rattle.som_elab_body.specs.Statements.{elaborated_block};
ghost use Rattle.som_elab_laws.specs.Conforming.{ClientConforms, LibraryConforms};
ghost use Rattle.som_elab_laws.specs.Expressions.{ExprSays};
ghost use Rattle.som_elab_laws.specs.Modules.{ProgramSays, ReleaseSays};
ghost use Rattle.som_elab_laws.specs.Statements.{BlockSays};
ghost use Rattle.som_elab_program_laws.specs.NothingTwice.{NothingTwice};
ghost use Rattle.som_model.specs.Classes.{interface_classes};
ghost use Rattle.som_model.specs.Typing.{CodePlace};
ghost use Rattle.som_model.specs.declared.program.ClientProgram.{ClientProgram};
ghost use Rattle.som_model.specs.declared.program.Interface.{Interface};
ghost use Rattle.som_model.specs.declared.program.Release.{Release};
ghost use Rattle.som_model.specs.declared.syntax.Block.{Block};
ghost use Rattle.som_model.specs.declared.syntax.Expr.{Expr};
ghost use Rattle.som_verify_classes.specs.Faces.{faces_breach};
ghost use Rattle.std.specs.Prelude.{◌≡◌, List as Seq, None, Ok};

/// Where no two names in scope are the same, and no two variables and no two parents of the body's class, the text of an
/// expression says one expression, and the block that the text of one stands for is the only one that it says.
pub fn one_block_law()
    ensures expression { (a : Among) (at : CodePlace) (scope : Names) (e : ExprText) (x y : Expr) → NothingTwice at scope →
        ExprSays a at scope e x → ExprSays a at scope e y → x ≡ y }
    ensures block { (a : Among) (at : CodePlace) (scope : Names) (b : BlockText) (x y : Block) → NothingTwice at scope →
        elaborated_block a at b scope ≡ Ok x → BlockSays a at scope b y → y ≡ x }
{}

/// Texts that conform say one release, or one client program over a base whose faces break no rule.
pub fn one_program_law()
    ensures release { (is : Seq IdlInterface) (bs : Seq BodyText) (r s : Release) → LibraryConforms is bs → ReleaseSays is bs r → ReleaseSays is bs s → r ≡ s }
    ensures program { (base : Interface) (is : Seq IdlInterface) (bs : Seq BodyText) (main : BlockText) (p q : ClientProgram) →
        faces_breach (interface_classes base) ≡ None → ClientConforms base is bs main → ProgramSays base is bs main p → ProgramSays base is bs main q → p ≡ q }
{}
