//! The classes that a task needs are those that were used, with those above them and their metaclasses. Laws of the
//! definitions are the contracts of functions with no body. Proofs of other crates cite its laws, and no code calls it.

ghost use Rattle.som_code.specs.Machine.{On};
ghost use Rattle.som_machine_laws.specs.Frames.{Frames};
ghost use Rattle.som_machine_laws.specs.Step.{main_frames, step};
ghost use Rattle.som_machine_laws.specs.Tested.{Tests};
ghost use Rattle.som_semantics.specs.Means.{nothing_yet};
ghost use Rattle.som_semantics.specs.Runs.{Goes};
ghost use Rattle.som_semantics.specs.State.{Heap, Ref, State, class_of};
ghost use Rattle.som_semantics.specs.World.{World};
ghost use Rattle.som_model.specs.declared.key.ClassKey.{ClassKey};
ghost use Rattle.som_model.specs.declared.syntax.Block.{Block};
ghost use Rattle.som_machine_laws.specs.Needs.{AreClosed, FramesIn, HasUsed, HeapIn, RefIn};
ghost use Rattle.std.specs.Prelude.{◌≡◌, ℕ, Bool, true};

/// Whichever classes are made, if they are closed: main needs none besides at the start, and a step that goes on needs
/// none besides after it, as long as each class that was used is made. So each class that is asked for, that of a
/// reference, of a body that runs or is left, or of a parent, is made where `new`, `class`, `proxy` and finding a
/// class make what they use. With more classes made that stays so (`more`).
pub fn needs_law()
    ensures start { (made : ClassKey → Bool) (levels : ℕ) (main : Block) → FramesIn made (main_frames levels main) }
    ensures nothing { (w : World) (made : ClassKey → Bool) → HeapIn made (nothing_yet w) }
    ensures frames { (w : World) (tests : Tests) (made : ClassKey → Bool) (fs gs : Frames) (s t : State) →
        AreClosed w made → FramesIn made fs → HeapIn made s.heap →
        (step w tests fs).does s ≡ Goes (On gs) t → HasUsed made t.events → FramesIn made gs }
    ensures heap { (w : World) (tests : Tests) (made : ClassKey → Bool) (fs gs : Frames) (s t : State) →
        AreClosed w made → FramesIn made fs → HeapIn made s.heap →
        (step w tests fs).does s ≡ Goes (On gs) t → HasUsed made t.events → HeapIn made t.heap }
    ensures more { (made more : ClassKey → Bool) (fs : Frames) → ((k : ClassKey) → made k ≡ true → more k ≡ true) →
        FramesIn made fs → FramesIn more fs }
    ensures more_heap { (made more : ClassKey → Bool) (h : Heap) → ((k : ClassKey) → made k ≡ true → more k ≡ true) →
        HeapIn made h → HeapIn more h }
    ensures class { (w : World) (made : ClassKey → Bool) (h : Heap) (r : Ref) →
        AreClosed w made → HeapIn made h → RefIn made r → made (class_of w h r) ≡ true }
{}
