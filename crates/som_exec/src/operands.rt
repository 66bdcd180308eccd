//! The receiver and the arguments of a call, taken off the operands of its caller.

ghost use Rattle.som_interp_ops.specs.Cells.{lower_cells};
ghost use Rattle.std.specs.Prelude.{◌≡◌, ◌+◌, ◌-◌, ◌<◌, ◌^◌, [], IfOk, OnOk, drop, length, take};

use som_interp_calls::take_call;
use som_interp_ops::pop;
use som_interp_state::Body;
use som_model::NoMemory;
use som_objects::Cell;

/// The arguments of a call, taken off the operands of a body with the receiver below them; the body goes on after the call. None
/// or one of them comes in a vector that is there.
#[inline(always)]
pub(crate) fn take_operands(
    body: &mut Body,
    count: usize,
    spare: Vec<Cell>,
) -> Result<Vec<Cell>, NoMemory>
    requires room { body.old.at + 1 < 2 ^ 64 }
    requires above { count < length body.old.operands.items }
    requires none { spare.items ≡ [] }
    ensures args { IfOk result (λ args. args.items ≡ drop (length body.old.operands.items - count) body.old.operands.items) }
    ensures rest { OnOk result (body.new.operands.items ≡ lower_cells (take (length body.old.operands.items - count) body.old.operands.items)) }
    ensures same { OnOk result (body.new ≡ record body.old { at = body.old.at + 1; operands = body.new.operands }) }
{
    if count != 1 {
        let (_on, args) = take_call(body, count)?;
        return Ok(args);
    }
    let mut args = spare;
    let argument = pop(&mut body.operands);
    args.push(argument)?;
    drop(pop(&mut body.operands));
    body.at += 1;
    Ok(args)
}
