//! Instructions that apply operators and the host's procedures to operands.

ghost use Rattle.som_code.specs.declared.instruction.Instruction.TheVariants as ops;
ghost use Rattle.som_interp_ops.specs.Doing.{Did};
ghost use Rattle.som_semantics.specs.State.{Heap};
ghost use Rattle.som_objects.specs.Objects.{Objects};
ghost use Rattle.som_interp_state.specs.Own.{IsOwnBody};
ghost use Rattle.som_interp_state.specs.Settings.{Setting};
ghost use Rattle.som_values.specs.Shown.{AreApart};
ghost use Rattle.std.specs.Prelude.{◌<◌, ◌+◌, ◌^◌, OnOk};

use crate::{pop, push};
use som_host::HostTable;
use som_interp_state::Body;
use som_model::HostCode;
use som_values::Stopped;
use std::alloc::Global;

/// An operator of one operand, by its number.
pub fn unary(alloc: Global, number: u8, body: &mut Body) -> Result<(), Stopped>
    requires { body.old.at + 1 < 2 ^ 64 }
    ensures did { (s : Setting) (h : Heap) → Did s h body.old result body.new (ops.Unary number) }
    ensures own { (s : Setting) (os : Objects) → IsOwnBody s os body.old → OnOk result (IsOwnBody s os body.new) }
{
    let operand = pop(&mut body.operands);
    let value = som_values::unary(alloc, number, &operand)?;
    push(&mut body.operands, value)?;
    body.at += 1;
    Ok(())
}

/// An operator of two operands, by its number.
pub fn binary(alloc: Global, number: u8, body: &mut Body) -> Result<(), Stopped>
    requires { body.old.at + 1 < 2 ^ 64 }
    ensures did { (s : Setting) (os : Objects) (h : Heap) → AreApart s.linked.keys → IsOwnBody s os body.old → Did s h body.old result body.new (ops.Binary number) }
    ensures own { (s : Setting) (os : Objects) → IsOwnBody s os body.old → OnOk result (IsOwnBody s os body.new) }
{
    let right = pop(&mut body.operands);
    let left = pop(&mut body.operands);
    let value = som_values::binary(alloc, number, &left, &right)?;
    push(&mut body.operands, value)?;
    body.at += 1;
    Ok(())
}

/// A procedure of the host, for the two operands on top.
pub fn call_host(host: &HostTable, code: HostCode, body: &mut Body) -> Result<(), Stopped>
    requires { body.old.at + 1 < 2 ^ 64 }
    ensures did { (s : Setting) (h : Heap) → Did s h body.old result body.new (ops.Host code) }
    ensures own { (s : Setting) (os : Objects) → IsOwnBody s os body.old → OnOk result (IsOwnBody s os body.new) }
{
    let right = pop(&mut body.operands);
    let left = pop(&mut body.operands);
    push(
        &mut body.operands,
        som_values::host(host, code, &left, &right),
    )?;
    body.at += 1;
    Ok(())
}
