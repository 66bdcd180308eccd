//! The loop of the interpreter: steps until main is over or the task stops.

ghost use Rattle.som_interp_loop.specs.Burst.{GoesLower};
ghost use Rattle.som_interp_loop.specs.Ran.{RanOn, ended};
ghost use Rattle.som_interp_loop.specs.Standing.{IsSomewhere};
ghost use Rattle.som_interp_loop.specs.Stepped.{Counts, StaysCalm};
ghost use Rattle.std.specs.Prelude.{◌≡◌, ◌<◌, Ok, true};

use crate::{Moves, Stop};

/// A task goes on until its main is over, or it stops: by a fault, or where no unit is left, and then it stands where it
/// can go on. What it comes to is what its main means with the units that were granted. Where nothing searches for a name
/// and no class that is made has hooks, two steps are counted for each call event that came, and two more.
pub fn run_on<M: Moves>(moves: &mut M) -> Result<(), Stop>
    requires { IsSomewhere (M.scene moves.old) }
    ensures ran { RanOn (M.shows moves.old) (M.prefix moves.old) (M.written moves.old) (M.written moves.new) (M.counted moves.old) (M.counted moves.new) (M.scene moves.old) (M.scene moves.new) (ended result) }
    ensures shows { M.shows moves.new ≡ M.shows moves.old }
    ensures prefix { M.prefix moves.new ≡ M.prefix moves.old }
    ensures lent { M.lent moves.new ≡ M.lent moves.old }
    ensures counts { Counts (M.faults moves.old) (M.faults moves.new) (ended result) }
    ensures calms { StaysCalm (M.calm moves.old) (M.calm moves.new) (M.faults moves.old) (M.faults moves.new) (ended result) }
{
    while run_unit(moves)? {}
    Ok(())
}

// Goes on until a unit is taken; false where main is over.
fn run_unit<M: Moves>(moves: &mut M) -> Result<bool, Stop>
    requires { IsSomewhere (M.scene moves.old) }
    ensures ran { RanOn (M.shows moves.old) (M.prefix moves.old) (M.written moves.old) (M.written moves.new) (M.counted moves.old) (M.counted moves.new) (M.scene moves.old) (M.scene moves.new) result }
    ensures shows { M.shows moves.new ≡ M.shows moves.old }
    ensures prefix { M.prefix moves.new ≡ M.prefix moves.old }
    ensures lent { M.lent moves.new ≡ M.lent moves.old }
    ensures counts { Counts (M.faults moves.old) (M.faults moves.new) result }
    ensures calms { StaysCalm (M.calm moves.old) (M.calm moves.new) (M.faults moves.old) (M.faults moves.new) result }
    ensures somewhere { result ≡ Ok true → IsSomewhere (M.scene moves.new) }
    ensures less { result ≡ Ok true → (M.scene moves.new).fuel < (M.scene moves.old).fuel }
{
    let fuel = moves.fuel();
    loop {
        if !go_on(moves)? {
            return Ok(false);
        }
        if moves.fuel() < fuel {
            return Ok(true);
        }
    }
}

// Steps of the body that runs, if one does, and then one step, whatever is next.
fn go_on<M: Moves>(moves: &mut M) -> Result<bool, Stop>
    requires { IsSomewhere (M.scene moves.old) }
    ensures ran { RanOn (M.shows moves.old) (M.prefix moves.old) (M.written moves.old) (M.written moves.new) (M.counted moves.old) (M.counted moves.new) (M.scene moves.old) (M.scene moves.new) result }
    ensures shows { M.shows moves.new ≡ M.shows moves.old }
    ensures prefix { M.prefix moves.new ≡ M.prefix moves.old }
    ensures lent { M.lent moves.new ≡ M.lent moves.old }
    ensures counts { Counts (M.faults moves.old) (M.faults moves.new) result }
    ensures calms { StaysCalm (M.calm moves.old) (M.calm moves.new) (M.faults moves.old) (M.faults moves.new) result }
    ensures goes { result ≡ Ok true → GoesLower (M.scene moves.old) (M.scene moves.new) }
{
    moves.burst()?;
    moves.step()
}
