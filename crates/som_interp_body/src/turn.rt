//! The instruction by which a turn of a loop takes a unit of fuel.

ghost use Rattle.som_code.specs.declared.instruction.Instruction.TheVariants as ops;
ghost use Rattle.som_meta.specs.Numbering.{Numbering};
ghost use Rattle.som_model.specs.declared.syntax.Block.{Block};
ghost use Rattle.som_model.specs.declared.key.ClassKey.{ClassKey};
ghost use Rattle.som_interp_loop.specs.Scene.{scene};
ghost use Rattle.som_interp_loop.specs.NextInstruction.{next_of};
ghost use Rattle.som_interp_body.specs.Obeying.{ComesTo, following};
ghost use Rattle.som_interp_loop.specs.declared.stop.Stop.TheVariants as stops;
ghost use Rattle.som_objects.specs.Objects.{Objects};
ghost use Rattle.som_interp_state.specs.Settings.{Linked};
ghost use Rattle.som_interp_state.specs.declared.task.Task.{Task};
ghost use Rattle.som_machine_laws.specs.Needs.{AreClosed};
ghost use Rattle.std.specs.Prelude.{◌≡◌, ◌≢◌, ◌<◌, ◌+◌, ◌^◌, [], Bool, Err, List, Some};

use crate::outcome::Outcome;
use som_interp_loop::Stop;
use som_interp_state::Body;

/// A turn of a loop takes a unit.
pub(crate) fn turn(fuel: &mut u32, body: &mut Body) -> Result<Outcome, Stop>
    requires { body.old.at + 1 < 2 ^ 64 }
    ensures sound { result ≢ Err stops.SinkFailed }
    ensures comes { (l : Linked) (kn : Numbering) (main : Block) (made : ClassKey → Bool) (os : Objects) (t : Task) → AreClosed l.world made → next_of (scene l kn main made os t fuel.old) body.old ≡ Some ops.Turn
        → ComesTo (scene l kn main made os t fuel.old) (scene l kn main made os t fuel.new) body.old (following result body.new) [] }
{
    if *fuel == 0 {
        return Err(Stop::Spent);
    }
    *fuel -= 1;
    body.at += 1;
    Ok(Outcome::GoesOn)
}
