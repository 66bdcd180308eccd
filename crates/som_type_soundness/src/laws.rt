//! Type soundness of runs: typed code keeps values typed, and no test of a step fails.

ghost use Rattle.som_semantics.specs.Acts.{fault};
ghost use Rattle.som_model.specs.Class.{Class, interface_of};
ghost use Rattle.som_model.specs.Classes.{classes, client_classes, interface_classes, library_classes};
ghost use Rattle.som_model.specs.Compatible.{Accepted};
ghost use Rattle.som_model.specs.Conforming.{ProgramOk};
ghost use Rattle.som_model.specs.Counts.{ClassCounted, block_counted};
ghost use Rattle.som_model.specs.Kernel.{kernel};
ghost use Rattle.som_model.specs.Lists.{Mem};
ghost use Rattle.som_model.specs.Loads.{Loads};
ghost use Rattle.som_semantics.specs.Means.{beginning, means, means_in};
ghost use Rattle.som_semantics.specs.Runs.{Act, Ends, Faulted, end_of};
ghost use Rattle.som_semantics.specs.State.{InMain};
ghost use Rattle.som_semantics.specs.World.{World, world};
ghost use Rattle.som_model.specs.declared.key.ClassKey.{ClassKey};
ghost use Rattle.som_model.specs.declared.key.MethodRef.{MethodRef};
ghost use Rattle.som_model.specs.declared.limits.TheConstants.{MAX_LAID_CLASSES};
ghost use Rattle.som_model.specs.declared.program.ClientProgram.{ClientProgram};
ghost use Rattle.som_model.specs.declared.program.Fault.{Fault};
ghost use Rattle.som_model.specs.declared.program.Release.{Release};
ghost use Rattle.som_model.specs.declared.syntax.Block.{Block};
ghost use Rattle.som_release_laws.specs.Releasing.{HaveParents};
ghost use Rattle.som_type_soundness.specs.Checked.{checked_in, printing_nil};
ghost use Rattle.som_type_soundness.specs.Heaps.{AreTyped};
ghost use Rattle.som_type_soundness.specs.Preserving.{BlocksKeepTypes, ExpressionsKeepTypes, StatementsKeepTypes};
ghost use Rattle.std.specs.Prelude.{◌≡◌, ◌≤◌, ◌∷◌, ◌++◌, [], ℕ, List as Seq, Some, IsSome, length, true};

/// No value of a run is ill typed, and nothing that it asks for is missing. Where classes and a main can be
/// loaded, main does the same with each step's tests in front of it, whatever is done where a test fails: so
/// no test ever fails, however much fuel there is. And after so much fuel all objects are well typed. Of any
/// classes it holds that a name means only methods with a signature, and that a test that fails is seen: a
/// main that prints nil, which is no well typed one, is cut short there.
pub fn typed_law()
    ensures checks { (cs : Seq Class) (main : Block) → Loads cs main → (otherwise : Act (Unit {0})) (fuel : ℕ) →
        checked_in otherwise (world (kernel ++ cs)) main fuel ≡ means_in (world (kernel ++ cs)) main fuel }
    ensures objects { (cs : Seq Class) (main : Block) → Loads cs main → (fuel : ℕ) →
        AreTyped (world (kernel ++ cs)) (end_of (means_in (world (kernel ++ cs)) main fuel)).heap }
    ensures names { (cs : Seq Class) (k : ClassKey) (name : Seq ℕ) (r : MethodRef) →
        (world cs).byname k name ≡ Some r → IsSome ((world cs).sig r) }
    ensures seen { (w : World) (f : Fault) (fuel : ℕ) →
        checked_in (fault f InMain) w printing_nil fuel ≡ Ends (Faulted f InMain) (beginning w fuel) }
{}

/// Typed code keeps types: from typed objects, locals of the types in scope, and a self of the class whose
/// body runs, an expression that typing gives a type leaves a value of that type, a statement locals of the
/// types in the scope after it, and a block those in the scope before it; a body that ends with a value ends
/// with one of its result's type. What is left is typed among the objects of that time, also where the run
/// ends there, and however many levels of calls are left.
pub fn preservation_law()
    ensures expressions { (cs : Seq Class) (main : Block) → Loads cs main → ExpressionsKeepTypes cs }
    ensures statements { (cs : Seq Class) (main : Block) → Loads cs main → StatementsKeepTypes cs }
    ensures blocks { (cs : Seq Class) (main : Block) → Loads cs main → BlocksKeepTypes cs }
{}

/// In a run of a client program on a release with which it can be loaded no test fails, and all objects stay
/// well typed. None fails either on the last of a list of releases, each of which was accepted against the one
/// before, where the program conforms and was compiled against any of them.
pub fn typed_program_law()
    ensures checks { (r : Release) (p : ClientProgram) → Loads (library_classes r ++ client_classes p) p.main →
        (otherwise : Act (Unit {0})) (fuel : ℕ) →
        checked_in otherwise (world (classes r p)) p.main fuel ≡ means r p fuel }
    ensures objects { (r : Release) (p : ClientProgram) → Loads (library_classes r ++ client_classes p) p.main →
        (fuel : ℕ) → AreTyped (world (classes r p)) (end_of (means r p fuel)).heap }
    ensures accepted { (rs : Seq Release) (last r : Release) (p : ClientProgram) → Accepted (rs ++ last ∷ []) →
        Mem r (rs ++ last ∷ []) → p.base ≡ interface_of r → ProgramOk p →
        HaveParents (interface_classes p.base ++ client_classes p) → HaveParents (library_classes last) →
        length (library_classes last ++ client_classes p) ≤ MAX_LAID_CLASSES →
        ((c : Class) → Mem c (library_classes last ++ client_classes p) → ClassCounted c.decl) →
        block_counted p.main ≡ true → (otherwise : Act (Unit {0})) (fuel : ℕ) →
        checked_in otherwise (world (classes last p)) p.main fuel ≡ means last p fuel }
{}
