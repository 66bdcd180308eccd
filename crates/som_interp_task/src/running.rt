//! A task run with all of its fuel at once.

ghost use Rattle.som_interp_loop.specs.Counted.{IsBoundedScene};
ghost use Rattle.som_interp_task.specs.Run.{Counts, CountsRunSearches, LeavesFuel, RunsSo, StaysCalm};
ghost use Rattle.som_interp_task.specs.Stands.{Stands, meaning};
ghost use Rattle.std.specs.Prelude.{◌≡◌, false};

use crate::{Advanced, Advances, Outcome, advance};

/// Goes on with a task that was just started, by all of its fuel: what it comes to is what main means with that fuel.
/// Where main is over, the units are left that its meaning leaves.
pub fn run<M: Advances>(moves: &mut M, fuel: u32) -> Outcome
    requires stands { Stands (M.scene moves.old) }
    requires granted { (M.scene moves.old).task.granted ≡ 0 }
    requires begun { (M.scene moves.old).task.begun ≡ false }
    ensures runs { RunsSo (M.scene moves.old) fuel (M.shows moves.old) (M.prefix moves.old) (M.written moves.old) (M.written moves.new) (M.scene moves.new) result }
    ensures left { LeavesFuel (meaning (M.scene moves.old) fuel) (M.scene moves.new).fuel result }
    ensures lent { M.lent moves.new ≡ M.lent moves.old }
    ensures counted { CountsRunSearches (IsBoundedScene (M.scene moves.new)) (meaning (M.scene moves.old) fuel) (M.shows moves.old) (M.prefix moves.old) (M.written moves.old) (M.written moves.new) (M.counted moves.old) (M.counted moves.new) result }
    ensures counts { Counts (M.faults moves.old) (M.faults moves.new) result }
    ensures calms { StaysCalm (M.calm moves.old) (M.calm moves.new) (M.faults moves.old) (M.faults moves.new) result }
{
    match advance(moves, fuel) {
        Advanced::Going => Outcome::Spent,
        Advanced::Done => Outcome::Done,
        Advanced::SourceFault { fault, at } => Outcome::SourceFault { fault, at },
        Advanced::SinkFailed => Outcome::SinkFailed,
        Advanced::NoMemory => Outcome::NoMemory,
    }
}
