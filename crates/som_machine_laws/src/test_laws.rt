//! Among classes that can be loaded no test of a machine of frames fails, so it comes to what main means. Laws of the
//! definitions are the contracts of functions with no body. Proofs of other crates cite its laws, and no code calls it.

ghost use Rattle.som_code.specs.Machine.{ComesTo};
ghost use Rattle.som_machine_laws.specs.Stands.{Stands};
ghost use Rattle.som_machine_laws.specs.Step.{main_frames, step};
ghost use Rattle.som_machine_laws.specs.Tested.{Tests, tested_in};
ghost use Rattle.som_model.specs.Class.{Class};
ghost use Rattle.som_model.specs.Kernel.{kernel};
ghost use Rattle.som_model.specs.Loads.{Loads};
ghost use Rattle.som_semantics.specs.Means.{beginning, means_in};
ghost use Rattle.som_semantics.specs.World.{World, world};
ghost use Rattle.som_model.specs.declared.limits.TheConstants.{MAX_DEPTH};
ghost use Rattle.som_model.specs.declared.syntax.Block.{Block};
ghost use Rattle.som_machine_laws.specs.Implied.{AreImplied, checking, untested};
ghost use Rattle.som_machine_laws.specs.Needs.{AreClosed};
ghost use Rattle.som_model.specs.Kernel.{som_object, som_class_mgr};
ghost use Rattle.som_model.specs.Lists.{Mem};
ghost use Rattle.som_model.specs.declared.key.ClassKey.{ClassKey};
ghost use Rattle.std.specs.Prelude.{◌≡◌, ◌++◌, ℕ, Bool, List, true};

/// Where classes and a main can be loaded, main on frames comes to exactly what main means, with every fuel, if the
/// machine tests no more than what is always there in a typed run: to the same end, at the same place, with the
/// same events, fuel and objects. Before its first step it stands for main's meaning.
pub fn loaded_law()
    ensures comes { (cs : List Class) (main : Block) (tests : Tests) (fuel : ℕ) →
        Loads cs main → AreImplied (world (kernel ++ cs)) tests →
        ComesTo (step (world (kernel ++ cs)) tests) (main_frames MAX_DEPTH main) (beginning (world (kernel ++ cs)) fuel)
        (means_in (world (kernel ++ cs)) main fuel) }
    ensures stands { (cs : List Class) (main : Block) (tests : Tests) →
        Loads cs main → AreImplied (world (kernel ++ cs)) tests →
        Stands (step (world (kernel ++ cs)) tests) (means_in (world (kernel ++ cs)) main) (main_frames MAX_DEPTH main)
        (beginning (world (kernel ++ cs)) 0) 0 }
    ensures same { (cs : List Class) (main : Block) (tests : Tests) (fuel : ℕ) →
        Loads cs main → AreImplied (world (kernel ++ cs)) tests →
        tested_in (world (kernel ++ cs)) tests main fuel ≡ means_in (world (kernel ++ cs)) main fuel }
{}

/// Tests that never fail there: none at all, and all that a typed run has in front of calls and bodies.
pub fn tests_law()
    ensures none { (w : World) → AreImplied w untested }
    ensures all { (w : World) → AreImplied w (checking w) }
{}

/// Where classes can be loaded, a set of them that has the parents and the metaclass of each of its classes, and
/// SOMObject and SOMClassMgr, has their hooks and the classes that answer for them: it is closed as `specs/Needs.antt` asks.
pub fn closed_law()
    ensures { (cs : List Class) (main : Block) (made : ClassKey → Bool) → Loads cs main →
        made som_object ≡ true → made som_class_mgr ≡ true →
        ((k p : ClassKey) → made k ≡ true → Mem p ((world (kernel ++ cs)).parents k) → made p ≡ true) →
        ((k : ClassKey) → made k ≡ true → made ((world (kernel ++ cs)).meta k) ≡ true) →
        AreClosed (world (kernel ++ cs)) made }
{}
