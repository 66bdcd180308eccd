//! The machine of frames means what the meaning means. Laws of the definitions are the contracts of functions with no
//! body. Proofs of other crates cite its laws, and no code calls it.

ghost use Rattle.som_code.specs.Machine.{On, Over, ComesTo};
ghost use Rattle.som_machine_laws.specs.Comes.{Comes};
ghost use Rattle.som_machine_laws.specs.Counts.{invokes, size, unless_spent};
ghost use Rattle.som_machine_laws.specs.Frames.{Answering, Calling, Frames, Waiting};
ghost use Rattle.som_machine_laws.specs.Stands.{Stands};
ghost use Rattle.som_machine_laws.specs.Step.{frames, main_frames, step};
ghost use Rattle.som_machine_laws.specs.Tested.{Tests, tested, tested_in};
ghost use Rattle.som_machine_laws.specs.Weight.{IsNowSound, weight};
ghost use Rattle.som_semantics.specs.Calls.{Request};
ghost use Rattle.som_semantics.specs.Means.{beginning};
ghost use Rattle.som_semantics.specs.RunText.{call_count};
ghost use Rattle.som_semantics.specs.Runs.{Adds, Cut, Ends, Goes, IsLater, IsPrefix, Out, Ran, Spent, as_told, end_of, follow, kept, with_more};
ghost use Rattle.som_semantics.specs.State.{State};
ghost use Rattle.som_semantics.specs.World.{World};
ghost use Rattle.som_model.specs.declared.limits.TheConstants.{MAX_DEPTH};
ghost use Rattle.som_model.specs.declared.syntax.Block.{Block};
ghost use Rattle.std.specs.Prelude.{◌≡◌, ◌⊎◌, ◌+◌, ◌<◌, ◌≤◌, ℕ, List};

/// Main on frames comes to what main means with these tests in front of calls and bodies, with every fuel, whatever
/// the classes: to the same end, at the same place, with the same events, fuel and objects. And a call on frames
/// comes to what the call means so, and then answers its value to what waits for it.
pub fn meaning_law()
    ensures main { (w : World) (tests : Tests) (main : Block) (fuel : ℕ) →
        ComesTo (step w tests) (main_frames MAX_DEPTH main) (beginning w fuel) (tested_in w tests main fuel) }
    ensures calls { (w : World) (tests : Tests) (levels : ℕ) (q : Request) (waiting : List Waiting) (s : State) →
        Comes (step w tests) (Goes (On (frames (Calling levels q) waiting)) s)
        (follow ((tested w tests levels q).does s) (λ v t. Goes (On (frames (Answering v) waiting)) t)) }
{}

/// A task that stands for a meaning: at the start it stands for main's, with the tests; it stands when units are granted and after
/// each step that goes on; a step that ends says how the meaning ends, and what a step shows stands in the
/// meaning's events.
pub fn stands_law()
    ensures start { (w : World) (tests : Tests) (main : Block) →
        Stands (step w tests) (tested_in w tests main) (main_frames MAX_DEPTH main) (beginning w 0) 0 }
    ensures granted { (w : World) (tests : Tests) (means : ℕ → Ran (Unit {0})) (fs : Frames) (s : State) (n u : ℕ) →
        Stands (step w tests) means fs s n → Stands (step w tests) means fs (with_more u s) (n + u) }
    ensures on { (w : World) (tests : Tests) (means : ℕ → Ran (Unit {0})) (fs gs : Frames) (s t : State) (n : ℕ) →
        Stands (step w tests) means fs s n → (step w tests fs).does s ≡ Goes (On gs) t →
        Stands (step w tests) means gs t n }
    ensures over { (w : World) (tests : Tests) (means : ℕ → Ran (Unit {0})) (fs : Frames) (s t : State) (n : ℕ) →
        Stands (step w tests) means fs s n → (step w tests fs).does s ≡ Goes (Over (tt {0})) t →
        means n ≡ Goes (tt {0}) t }
    ensures ends { (w : World) (tests : Tests) (means : ℕ → Ran (Unit {0})) (fs : Frames) (s t : State) (n : ℕ) (c : Cut) →
        Stands (step w tests) means fs s n → (step w tests fs).does s ≡ Ends c t → means n ≡ Ends c t }
    ensures shows { (w : World) (tests : Tests) (means : ℕ → Ran (Unit {0})) (fs : Frames) (s : State) (n : ℕ) →
        Stands (step w tests) means fs s n →
        IsPrefix (end_of ((step w tests fs).does s)).events (end_of (means n)).events }
    ensures objects { (w : World) (tests : Tests) (means : ℕ → Ran (Unit {0})) (fs : Frames) (s : State) (n : ℕ) →
        Stands (step w tests) means fs s n → IsLater s.heap (end_of (means n)).heap }
{}

/// A step, where control doesn't leave the code that runs: it takes a unit, or makes the weight of the task
/// smaller, so that there is no end of steps only where there is no end of units; where the fuel is spent it has
/// changed nothing; it adds one call to the
/// events where it invokes a body, and else none; and a unit pays for each object that it makes.
pub fn step_law()
    ensures lower { (w : World) (tests : Tests) (fs gs : Frames) (s t : State) → IsNowSound fs.now →
        (step w tests fs).does s ≡ Goes (On gs) t → (t.fuel < s.fuel) ⊎ (weight w gs < weight w fs) }
    ensures spent { (w : World) (tests : Tests) (fs : Frames) (s t : State) → IsNowSound fs.now →
        (step w tests fs).does s ≡ Ends Spent t → (t ≡ s) × (s.fuel ≡ 0) }
    ensures counts { (w : World) (tests : Tests) (fs : Frames) (s : State) → IsNowSound fs.now →
        call_count (end_of ((step w tests fs).does s)).events
        ≡ call_count s.events + unless_spent (invokes tests fs.now s.heap) ((step w tests fs).does s) }
    ensures makes { (w : World) (tests : Tests) (fs : Frames) (s : State) → IsNowSound fs.now →
        size (end_of ((step w tests fs).does s)) ≤ size s }
{}

/// What a sink is told of a step, after it was told the events before: what it keeps of the events after the step.
pub fn told_law()
    ensures { (w : World) (tests : Tests) (fs : Frames) (s : State) (add : Adds) (out : Out) →
        (step w tests fs).told add (as_told add out s) ≡ kept add out ((step w tests fs).does s) }
{}
