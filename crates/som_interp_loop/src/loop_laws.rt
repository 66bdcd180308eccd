//! The laws of a task that stands: where it starts, and how granted units add up.

ghost use Rattle.som_machine_laws.specs.Frames.{Frames};
ghost use Rattle.som_machine_laws.specs.Step.{main_frames};
ghost use Rattle.som_interp_loop.specs.Standing.{StandsAt, StandsFor, with_units};
ghost use Rattle.som_semantics.specs.Means.{beginning, means_in};
ghost use Rattle.som_semantics.specs.Runs.{Ran, with_more};
ghost use Rattle.som_semantics.specs.State.{State};
ghost use Rattle.som_model.specs.declared.limits.TheConstants.{MAX_DEPTH};
ghost use Rattle.som_interp_loop.specs.Scene.{Scene};
ghost use Rattle.som_interp_state.specs.Asked.{Agree, CanLoad};
ghost use Rattle.std.specs.Prelude.{◌≡◌, ◌+◌, ℕ, Bool};

/// A task that stands with no unit left, and is granted some, stands for its meaning with as many units more.
pub fn granted_law()
    ensures { (c : Scene) (means : ℕ → Ran (Unit {0})) (n units granted : ℕ) (begun : Bool) (fs : Frames) (s : State) →
        StandsFor c means n fs s → s.fuel ≡ 0 → StandsFor (with_units c granted begun units) means (n + units) fs (with_more units s) }
{}

/// Among classes that can be loaded with a main, a task that stands where main begins, with no unit, stands for what
/// main means.
pub fn start_law()
    ensures { (c : Scene) → Agree c.linked.keys c.linked.world c.known c.linked → CanLoad c.known.classes c.main →
        StandsAt c (main_frames MAX_DEPTH c.main) (beginning c.linked.world 0) →
        StandsFor c (means_in c.linked.world c.main) 0 (main_frames MAX_DEPTH c.main) (beginning c.linked.world 0) }
{
    som_machine_laws::loaded_law();
    som_interp_state::tests_law();
    som_machine_laws::frames_law();
}
