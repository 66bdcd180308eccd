//! Receiver and arguments taken off the operand stack for a call.

ghost use Rattle.som_interp_ops.specs.Cells.{lower_cells, top_cell};
ghost use Rattle.std.specs.Prelude.{◌≡◌, ◌+◌, ◌-◌, ◌<◌, ◌^◌, IfOk, OnOk, drop, length, take};

use som_interp_ops::pop;
use som_interp_state::Body;
use som_model::NoMemory;
use som_objects::Cell;

/// Takes the receiver and so many arguments off the operands of a body, which goes on after the call.
pub fn take_call(body: &mut Body, count: usize) -> Result<(Cell, Vec<Cell>), NoMemory>
    requires { body.old.at + 1 < 2 ^ 64 }
    ensures receiver { IfOk result (λ taken. taken.0 ≡ top_cell (take (length body.old.operands.items - count) body.old.operands.items)) }
    ensures args { IfOk result (λ taken. taken.1.items ≡ drop (length body.old.operands.items - count) body.old.operands.items) }
    ensures rest { OnOk result (body.new.operands.items ≡ lower_cells (take (length body.old.operands.items - count) body.old.operands.items)) }
    ensures same { OnOk result (body.new ≡ record body.old { at = body.old.at + 1; operands = body.new.operands }) }
{
    let args = take_arguments(&mut body.operands, count)?;
    let on = pop(&mut body.operands);
    body.at += 1;
    Ok((on, args))
}

/// Takes so many arguments off the operands of a body, which goes on after the call.
pub(crate) fn take_parent_call(body: &mut Body, count: usize) -> Result<Vec<Cell>, NoMemory>
    requires { body.old.at + 1 < 2 ^ 64 }
    ensures args { IfOk result (λ args. args.items ≡ drop (length body.old.operands.items - count) body.old.operands.items) }
    ensures rest { OnOk result (body.new.operands.items ≡ take (length body.old.operands.items - count) body.old.operands.items) }
    ensures same { OnOk result (body.new ≡ record body.old { at = body.old.at + 1; operands = body.new.operands }) }
{
    let args = take_arguments(&mut body.operands, count)?;
    body.at += 1;
    Ok(args)
}

/// The body goes on after its instruction.
pub(crate) fn go_past(body: &mut Body)
    requires { body.old.at + 1 < 2 ^ 64 }
    ensures { body.new ≡ record body.old { at = body.old.at + 1 } }
{
    body.at += 1;
}

// Takes so many operands off the top, in order. Where there are fewer, these are all.
fn take_arguments(operands: &mut Vec<Cell>, count: usize) -> Result<Vec<Cell>, NoMemory>
    ensures args { IfOk result (λ args. args.items ≡ drop (length operands.old.items - count) operands.old.items) }
    ensures rest { OnOk result (operands.new.items ≡ take (length operands.old.items - count) operands.old.items) }
{
    let place = operands.len().saturating_sub(count);
    let args = operands.split_off(place)?;
    Ok(args)
}
