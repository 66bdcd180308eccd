//! The trait of a task that goes on step by step.

ghost use Rattle.som_interp_loop.specs.Burst.{Lowers, underway};
ghost use Rattle.som_interp_loop.specs.Counted.{Counted};
ghost use Rattle.som_interp_loop.specs.Ran.{RanOn};
ghost use Rattle.som_interp_loop.specs.Standing.{IsSomewhere};
ghost use Rattle.som_interp_loop.specs.Stepped.{Counts, StaysCalm, Stepped};
ghost use Rattle.som_interp_loop.specs.Scene.{Scene};
ghost use Rattle.std.specs.Prelude.{◌≡◌, ℕ, Bool, List, OnOk, Option};

use crate::Stop;

/// A task over a kernel, a store of objects and a sink, which goes on step by step.
pub trait Moves {
    /// Where the task is, with the fuel that is left.
    ghost scene: { Self → Scene };

    /// The classes whose calls are shown, by their names.
    ghost shows: { Self → List ℕ → Bool };

    /// What stands before each line.
    ghost prefix: { Self → List ℕ };

    /// What the sink was given so far, where it tells.
    ghost written: { Self → Option (List ℕ) };

    /// How often the sink failed.
    ghost faults: { Self → ℕ };

    /// How many steps were counted.
    ghost counted: { Self → ℕ };

    /// That nothing is set to make the sink fail.
    ghost calm: { Self → Type 0 };

    /// The references that it works through, by their names, so that who lent them knows what they end as.
    ghost lent: { Self → List ℕ };

    /// The units that are left.
    fn fuel(&self) -> u32
        ensures { result ≡ (scene self.now).fuel };

    /// Steps of the body that runs, if one does, as long as they make no call and have a unit where they take one. It may
    /// be none.
    fn burst(&mut self) -> Result<(), Stop>
        requires { IsSomewhere (scene self.old) }
        ensures ran { RanOn (shows self.old) (prefix self.old) (written self.old) (written self.new) (counted self.old) (counted self.new) (scene self.old) (scene self.new) (underway result) }
        ensures somewhere { OnOk result (IsSomewhere (scene self.new)) }
        ensures lowers { OnOk result (Lowers (scene self.old) (scene self.new)) }
        ensures shows { shows self.new ≡ shows self.old }
        ensures prefix { prefix self.new ≡ prefix self.old }
        ensures lent { lent self.new ≡ lent self.old }
        ensures counts { Counts (faults self.old) (faults self.new) (underway result) }
        ensures calms { StaysCalm (calm self.old) (calm self.new) (faults self.old) (faults self.new) (underway result) };

    /// One step: it goes on, or, answering false, main is over. Where no unit is left for it, all is as it was.
    fn step(&mut self) -> Result<bool, Stop>
        requires { IsSomewhere (scene self.old) }
        ensures stepped { Stepped (shows self.old) (prefix self.old) (written self.old) (written self.new) (scene self.old) (scene self.new) result }
        ensures shows { shows self.new ≡ shows self.old }
        ensures prefix { prefix self.new ≡ prefix self.old }
        ensures lent { lent self.new ≡ lent self.old }
        ensures counted { Counted (scene self.old) (counted self.old) (counted self.new) }
        ensures counts { Counts (faults self.old) (faults self.new) result }
        ensures calms { StaysCalm (calm self.old) (calm self.new) (faults self.old) (faults self.new) result };
}
