//! The laws of the meaning: fuel, objects, what a sink is told, and loops turn by turn.

ghost use Rattle.som_semantics.specs.Told.{IsToldAs};
ghost use Rattle.som_model.specs.Class.{introduced};
ghost use Rattle.som_model.specs.Classes.{classes};
ghost use Rattle.som_semantics.specs.Expressions.{Evals, Frame};
ghost use Rattle.som_semantics.specs.Fuel.{IsOver, IsSpent, left_with};
ghost use Rattle.som_semantics.specs.Invoked.{table};
ghost use Rattle.som_model.specs.Kernel.{kernel_interface};
ghost use Rattle.som_model.specs.Lists.{doubles, joined};
ghost use Rattle.som_semantics.specs.Means.{means, told_in};
ghost use Rattle.som_semantics.specs.Runs.{Adds, IsLater, IsPrefix, Out, Told, end_of};
ghost use Rattle.som_semantics.specs.RunText.{line_added};
ghost use Rattle.som_semantics.specs.State.{State, used};
ghost use Rattle.som_semantics.specs.Statements.{Runs, turn, while_loop};
ghost use Rattle.som_semantics.specs.World.{world};
ghost use Rattle.som_model.specs.declared.key.ClassKey.{ClassKey};
ghost use Rattle.som_model.specs.declared.program.ClientProgram.{ClientProgram};
ghost use Rattle.som_model.specs.declared.program.Release.{Release};
ghost use Rattle.std.specs.Prelude.{◌≡◌, ◌⊎◌, ◌+◌, ◌-◌, ◌<◌, ◌≤◌, ◌++◌, [], ℕ, List, Bool, map, length};
ghost use Rattle.std.specs.Str.{bytes_eq};

/// The exact fuel of a run: one that comes to its end, or to a fault, with so much left does the same with just
/// as much as it took, and nothing is left then; with any less the fuel is spent. A run whose fuel is spent has
/// none left.
pub fn exact_fuel_law()
    ensures same { (r : Release) (p : ClientProgram) (fuel : ℕ) → IsOver (means r p fuel) →
        means r p (fuel - (end_of (means r p fuel)).fuel) ≡ left_with 0 (means r p fuel) }
    ensures less { (r : Release) (p : ClientProgram) (fuel : ℕ) → IsOver (means r p fuel) →
        (m : ℕ) → m < fuel - (end_of (means r p fuel)).fuel → IsSpent (means r p m) }
    ensures either { (r : Release) (p : ClientProgram) (fuel : ℕ) →
        IsOver (means r p fuel) ⊎ IsSpent (means r p fuel) }
{}

/// What more fuel leaves as it was: the end of a run, unless its fuel was spent; the events, which stand first;
/// the objects, with their classes and targets, and freed ones freed; and the classes that were used.
pub fn more_fuel_law()
    ensures over { (r : Release) (p : ClientProgram) (fuel k : ℕ) → IsOver (means r p fuel) →
        means r p (fuel + k) ≡ left_with ((end_of (means r p fuel)).fuel + k) (means r p fuel) }
    ensures events { (r : Release) (p : ClientProgram) (fuel k : ℕ) →
        IsPrefix (end_of (means r p fuel)).events (end_of (means r p (fuel + k))).events }
    ensures objects { (r : Release) (p : ClientProgram) (fuel k : ℕ) →
        IsLater (end_of (means r p fuel)).heap (end_of (means r p (fuel + k))).heap }
    ensures used { (r : Release) (p : ClientProgram) (fuel k : ℕ) → (ks : List ClassKey) ×
        (used (end_of (means r p (fuel + k))).events ≡ used (end_of (means r p fuel)).events ++ ks) }
{}

/// A run makes no more objects than it takes units.
pub fn objects_law()
    ensures { (r : Release) (p : ClientProgram) (fuel : ℕ) →
        length (end_of (means r p fuel)).heap.objects + (end_of (means r p fuel)).fuel ≤ fuel }
{}

/// What a sink is told of a run, whichever calls are shown and whatever stands before each line: the lines of
/// what it means.
pub fn told_law()
    ensures { (r : Release) (p : ClientProgram) (fuel : ℕ) (shows : List ℕ → Bool) (prefix : List ℕ) (out : Out) →
        IsToldAs shows prefix out (means r p fuel)
        (told_in (world (classes r p)) p.main fuel (line_added shows prefix) out) }
{}

/// A loop is one turn and then the loop: so it is done, and so it is told.
pub fn loop_law()
    ensures done { (c : Evals) (b : Runs) (frame : Frame) (s : State) →
        (while_loop c b frame).does s ≡ (turn c b (while_loop c b) frame).does s }
    ensures told { (c : Evals) (b : Runs) (frame : Frame) (add : Adds) (t : Told) →
        (while_loop c b frame).told add t ≡ (turn c b (while_loop c b) frame).told add t }
{}

/// The kernel has a body for each method that its classes introduce, and for each one body.
pub fn kernel_bodies_law()
    ensures all { map (λ row. row.0) table ≡ joined (map (λ f. introduced f.entries) kernel_interface.classes) }
    ensures once { doubles bytes_eq [] (map (λ row. row.0) table) ≡ [] }
{}
