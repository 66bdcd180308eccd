//! Laws of the front end: a program is what its texts say, and there is one where they conform.

ghost use Rattle.som_verify_classes.specs.Faces.{faces_breach};
ghost use Rattle.som_compile.specs.Compiling.{StandFor, StandForClient};
ghost use Rattle.som_elab.specs.Elaboration.{classes_over, drafts_over, elaborated_program, elaborated_release};
ghost use Rattle.som_elab_body.specs.Statements.{elaborated_block};
ghost use Rattle.som_elab_methods.specs.Bodies.{bodies_breach};
ghost use Rattle.som_model.specs.Classes.{interface_classes};
ghost use Rattle.som_model.specs.Rules.{RuleBreach};
ghost use Rattle.som_model.specs.Typing.{CodePlace};
ghost use Rattle.som_model.specs.declared.key.Module.{Module};
ghost use Rattle.som_model.specs.declared.program.ClientProgram.{ClientProgram};
ghost use Rattle.som_model.specs.declared.program.Interface.{Interface};
ghost use Rattle.som_model.specs.declared.program.Release.{Release};
ghost use Rattle.som_model.specs.declared.syntax.Block.{Block};
ghost use Rattle.som_sources.specs.declared.source.Source.{Source};
ghost use Rattle.som_elab_laws.specs.Conforming.{BodiesStand, ClientConforms, LibraryConforms};
ghost use Rattle.som_elab_laws.specs.Expressions.{ExprSays};
ghost use Rattle.som_elab_laws.specs.Keeping.{TextsKeep};
ghost use Rattle.som_elab_laws.specs.Lowest.{KeepBelow};
ghost use Rattle.som_elab_laws.specs.Modules.{ProgramSays, ReleaseSays};
ghost use Rattle.som_elab_laws.specs.Sources.{ClientSourcesConform, LibrarySourcesConform};
ghost use Rattle.som_elab_laws.specs.Statements.{BlockSays};
ghost use Rattle.som_sema.specs.Building.{texts_breach};
ghost use Rattle.som_ast.specs.declared.body.BlockText.{BlockText};
ghost use Rattle.som_ast.specs.declared.body.BodyText.{BodyText};
ghost use Rattle.som_ast.specs.declared.expression.ExprText.{ExprText};
ghost use Rattle.som_ast.specs.declared.interface.IdlInterface.{IdlInterface};
ghost use Rattle.som_elab_body.specs.Expressions.{Among, Elaborated, elaborated};
ghost use Rattle.som_elab_body.specs.Locals.{Names};
ghost use Rattle.std.specs.Prelude.{◌≡◌, ◌↔◌, suc, List as Seq, None, Ok, Some};

/// The expression that a text of one stands for is what the text says.
pub fn expression_law()
    ensures { (a : Among) (at : CodePlace) (scope : Names) (e : ExprText) (p : Elaborated) → elaborated a at scope e ≡ Ok p → ExprSays a at scope e p.expr }
{}

/// The block that a text of one stands for is what the text says.
pub fn block_law()
    ensures { (a : Among) (at : CodePlace) (scope : Names) (b : BlockText) (block : Block) → elaborated_block a at b scope ≡ Ok block → BlockSays a at scope b block }
{}

/// The release that texts stand for is what the texts say, and so is a client program, over a base whose faces break no rule.
pub fn saying_law()
    ensures release { (is : Seq IdlInterface) (bs : Seq BodyText) (r : Release) → elaborated_release is bs ≡ Ok r → ReleaseSays is bs r }
    ensures program { (base : Interface) (is : Seq IdlInterface) (bs : Seq BodyText) (main : BlockText) (p : ClientProgram) →
        faces_breach (interface_classes base) ≡ None → elaborated_program base is bs main ≡ Ok p → ProgramSays base is bs main p }
{}

/// Interfaces break none of the rules S1 to S12 exactly where they keep each of them, over a base whose faces break no rule.
pub fn keeping_law()
    ensures { (m : Module) (base : Interface) (is : Seq IdlInterface) → faces_breach (interface_classes base) ≡ None → (texts_breach m base is ≡ None) ↔ TextsKeep m base is }
{}

/// What is told of interfaces that break one of the rules S1 to S12 is the lowest that they break: they keep those of lower
/// number, and not that one with them.
pub fn lowest_law()
    ensures below { (m : Module) (base : Interface) (is : Seq IdlInterface) (b : RuleBreach) → faces_breach (interface_classes base) ≡ None →
        texts_breach m base is ≡ Some b → KeepBelow m base is b.rule }
    ensures broken { (m : Module) (base : Interface) (is : Seq IdlInterface) (b : RuleBreach) → faces_breach (interface_classes base) ≡ None →
        texts_breach m base is ≡ Some b → KeepBelow m base is (suc b.rule) → ⊥ }
{}

/// Of interfaces that keep the rules before, S13 and S14 hold exactly where each body stands where it may and each
/// method that has one has one.
pub fn bodies_law()
    ensures { (m : Module) (base : Interface) (is : Seq IdlInterface) (bs : Seq BodyText) →
        faces_breach (interface_classes base) ≡ None → TextsKeep m base is →
        (bodies_breach (classes_over m base is) (drafts_over m base is) bs ≡ None) ↔ BodiesStand (classes_over m base is) (drafts_over m base is) bs }
{}

/// There is a release for which texts stand exactly where they conform, and so it is with a client program, over a base
/// whose faces break no rule.
pub fn conforming_law()
    ensures library { (is : Seq IdlInterface) (bs : Seq BodyText) → LibraryConforms is bs ↔ ((r : Release) × (elaborated_release is bs ≡ Ok r)) }
    ensures client { (base : Interface) (is : Seq IdlInterface) (bs : Seq BodyText) (main : BlockText) → faces_breach (interface_classes base) ≡ None →
        ClientConforms base is bs main ↔ ((p : ClientProgram) × (elaborated_program base is bs main ≡ Ok p)) }
{}

/// Whole texts, as bytes under names, conform exactly where there is a release for which they stand, or a client program.
pub fn sources_law()
    ensures library { (ss : Seq Source) → LibrarySourcesConform ss ↔ ((r : Release) × StandFor ss r) }
    ensures client { (base : Interface) (ss : Seq Source) → faces_breach (interface_classes base) ≡ None →
        ClientSourcesConform base ss ↔ ((p : ClientProgram) × StandForClient base ss p) }
{}
