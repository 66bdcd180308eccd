//! Laws of interfaces: what they declare is what they say, and they say one face.

ghost use Rattle.som_verify_classes.specs.Faces.{faces_breach};
ghost use Rattle.som_verify_classes.specs.Plainly.{Differ};
ghost use Rattle.som_elab.specs.Elaboration.{elaborated_program, elaborated_release};
ghost use Rattle.som_sema.specs.Building.{texts_breach};
ghost use Rattle.som_model.specs.Lists.{Mem};
ghost use Rattle.som_model.specs.Class.{Class};
ghost use Rattle.som_model.specs.Classes.{interface_classes};
ghost use Rattle.som_model.specs.declared.class.ClassFace.{ClassFace};
ghost use Rattle.som_model.specs.declared.class.Variable.{Variable};
ghost use Rattle.som_model.specs.declared.key.Module.{Module};
ghost use Rattle.som_model.specs.declared.program.ClientProgram.{ClientProgram};
ghost use Rattle.som_model.specs.declared.program.Interface.{Interface};
ghost use Rattle.som_model.specs.declared.program.Release.{Release};
ghost use Rattle.som_ast.specs.declared.body.BlockText.{BlockText};
ghost use Rattle.som_ast.specs.declared.body.BodyText.{BodyText};
ghost use Rattle.som_ast.specs.declared.interface.IdlInterface.{IdlInterface};
ghost use Rattle.som_sema_laws.specs.Faces.{DeclaredNames, FaceSays, VariablesSay};
ghost use Rattle.som_sema_laws.specs.Modules.{InterfacesSay, InterfacesSayOver};
ghost use Rattle.std.specs.Prelude.{◌≡◌, ℕ, ◌++◌, List as Seq, None, Ok};

/// Each class of the release for which texts stand is what its interface says, and so is each class of a client's own, over
/// a base whose faces break no rule: its face, its variables, and what it overrides and selects.
pub fn declaring_law()
    ensures release { (is : Seq IdlInterface) (bs : Seq BodyText) (r : Release) → elaborated_release is bs ≡ Ok r → InterfacesSay is r }
    ensures program { (base : Interface) (is : Seq IdlInterface) (bs : Seq BodyText) (main : BlockText) (p : ClientProgram) →
        faces_breach (interface_classes base) ≡ None → elaborated_program base is bs main ≡ Ok p → InterfacesSayOver base is p }
{}

/// An interface that declares no name twice says one face, and each says one list of variables; those that break no rule
/// declare no name twice.
pub fn one_face_law()
    ensures face { (module_of : Seq ℕ → Module) (cs : Seq Class) (i : IdlInterface) (names : Seq (Seq ℕ)) (f g : ClassFace) →
        DeclaredNames (i.before ++ i.after) names → Differ (λ (name : Seq ℕ). name) names → FaceSays module_of cs i f → FaceSays module_of cs i g → f ≡ g }
    ensures variables { (module_of : Seq ℕ → Module) (i : IdlInterface) (vs ws : Seq Variable) →
        VariablesSay module_of i vs → VariablesSay module_of i ws → vs ≡ ws }
    ensures names { (m : Module) (base : Interface) (is : Seq IdlInterface) (i : IdlInterface) (names : Seq (Seq ℕ)) →
        texts_breach m base is ≡ None → Mem i is → DeclaredNames (i.before ++ i.after) names → Differ (λ (name : Seq ℕ). name) names }
{}
