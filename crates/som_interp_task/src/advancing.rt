//! A task advanced by more units of fuel.

ghost use Rattle.som_interp_task.specs.Advance.{Comes, Counts, CountsSearches, EndsBy, LeavesFuel, StaysCalm, with_granted};
ghost use Rattle.som_interp_task.specs.Stands.{Stands};
ghost use Rattle.som_interp_loop.specs.Counted.{IsBoundedScene};
ghost use Rattle.som_interp_loop.specs.Ran.{RanOn, ended};
ghost use Rattle.som_interp_loop.specs.Stepped.{Counts as StopCounts, StaysCalm as StopsCalm};
ghost use Rattle.som_interp_loop.specs.Scene.{setting_of};
ghost use Rattle.som_interp_state.specs.Own.{IsOwnPlace};
ghost use Rattle.som_interp_state.specs.Standing.{place_shown};
ghost use Rattle.std.specs.Prelude.{◌≡◌, ◌+◌, ◌<◌, ◌^◌};

use crate::{Advanced, Advances};
use som_interp_loop::{Stop, run_on};
use som_model::Fault;
use som_trace::{Place, Untold};

/// Grants units to a task that stands, and goes on until main is over, it has a fault, or no unit is left. What it comes
/// to is what main means with the units granted before and these. Where main is over, the units are left that the meaning
/// leaves. Where no class that is made has hooks, no more steps are counted than the call events that come now account for,
/// and one body and two searches; after SinkFailed and NoMemory a front of these events alone, whose lines were told.
pub fn advance<M: Advances>(moves: &mut M, units: u32) -> Advanced
    requires stands { Stands (M.scene moves.old) }
    requires units { (M.scene moves.old).task.granted + units < 2 ^ 32 }
    ensures comes { Comes (M.scene moves.old) units (M.shows moves.old) (M.prefix moves.old) (M.written moves.old) (M.written moves.new) (M.scene moves.new) result }
    ensures left { LeavesFuel (M.scene moves.old) units (M.scene moves.new).fuel result }
    ensures lent { M.lent moves.new ≡ M.lent moves.old }
    ensures counted { CountsSearches (IsBoundedScene (M.scene moves.new)) (M.scene moves.old) units (M.shows moves.old) (M.prefix moves.old) (M.written moves.old) (M.written moves.new) (M.counted moves.old) (M.counted moves.new) result }
    ensures counts { Counts (M.faults moves.old) (M.faults moves.new) result }
    ensures calms { StaysCalm (M.calm moves.old) (M.calm moves.new) (M.faults moves.old) (M.faults moves.new) result }
{
    match go_on(moves, units) {
        Ok(()) => Advanced::Done,
        Err(Stop::Fault { fault, at }) => end_by(moves, fault, at),
        Err(Stop::Spent) => Advanced::Going,
        Err(Stop::SinkFailed) => Advanced::SinkFailed,
        Err(Stop::NoMemory) => Advanced::NoMemory,
    }
}

/// Goes on with these units.
fn go_on<M: Advances>(moves: &mut M, units: u32) -> Result<(), Stop>
    requires stands { Stands (M.scene moves.old) }
    requires units { (M.scene moves.old).task.granted + units < 2 ^ 32 }
    ensures ran { RanOn (M.shows moves.old) (M.prefix moves.old) (M.written moves.old) (M.written moves.new) (M.counted moves.old) (M.counted moves.new) (with_granted (M.scene moves.old) units) (M.scene moves.new) (ended result) }
    ensures prefix { M.prefix moves.new ≡ M.prefix moves.old }
    ensures lent { M.lent moves.new ≡ M.lent moves.old }
    ensures counts { StopCounts (M.faults moves.old) (M.faults moves.new) (ended result) }
    ensures calms { StopsCalm (M.calm moves.old) (M.calm moves.new) (M.faults moves.old) (M.faults moves.new) (ended result) }
{
    som_interp_loop::granted_law();
    moves.grant(units);
    run_on(moves)
}

/// Ends by a fault in a place, of which the line is told.
fn end_by<M: Advances>(moves: &mut M, fault: Fault, at: Place) -> Advanced
    requires { IsOwnPlace (setting_of (M.scene moves.old)) (M.scene moves.old).objects at }
    ensures ends { EndsBy (M.prefix moves.old) (M.written moves.old) (M.written moves.new) fault (place_shown (setting_of (M.scene moves.old)) at) result }
    ensures scene { M.scene moves.new ≡ M.scene moves.old }
    ensures counted { M.counted moves.new ≡ M.counted moves.old }
    ensures lent { M.lent moves.new ≡ M.lent moves.old }
    ensures counts { Counts (M.faults moves.old) (M.faults moves.new) result }
    ensures calms { StaysCalm (M.calm moves.old) (M.calm moves.new) (M.faults moves.old) (M.faults moves.new) result }
{
    match moves.tell_fault(fault, at) {
        Ok(at) => Advanced::SourceFault { fault, at },
        Err(Untold::SinkFailed) => Advanced::SinkFailed,
        Err(Untold::NoMemory) => Advanced::NoMemory,
    }
}
