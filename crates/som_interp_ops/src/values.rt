//! Instructions that push constants, self and the class manager object, or drop the top.

ghost use Rattle.som_code.specs.declared.instruction.Instruction.TheVariants as ops;
ghost use Rattle.som_interp_ops.specs.Cells.{constant_cell, me_cell};
ghost use Rattle.som_interp_ops.specs.Doing.{Did};
ghost use Rattle.som_semantics.specs.State.{Heap};
ghost use Rattle.som_objects.specs.Objects.{Objects};
ghost use Rattle.som_interp_state.specs.Own.{IsOwnBody};
ghost use Rattle.som_interp_state.specs.Settings.{Setting};
ghost use Rattle.std.specs.Prelude.{◌≡◌, ◌<◌, ◌+◌, ◌^◌, IfOk, OnOk};

use crate::{pop, push};
use som_code::Constant;
use som_interp_state::Body;
use som_model::NoMemory;
use som_objects::{Cell, SharedText};
use som_values::{Reference, Stopped, refer};
use std::alloc::Global;

/// A value that stands in code comes to the top.
pub fn push_constant(alloc: Global, constant: &Constant, body: &mut Body) -> Result<(), Stopped>
    requires { body.old.at + 1 < 2 ^ 64 }
    ensures did { (s : Setting) (h : Heap) → Did s h body.old result body.new (ops.Push constant.now) }
    ensures own { (s : Setting) (os : Objects) → IsOwnBody s os body.old → OnOk result (IsOwnBody s os body.new) }
{
    push(&mut body.operands, copy_constant(alloc, constant)?)?;
    body.at += 1;
    Ok(())
}

fn copy_constant(alloc: Global, constant: &Constant) -> Result<Cell, NoMemory>
    ensures { IfOk result (λ cell. cell ≡ constant_cell constant.now) }
{
    match constant {
        Constant::Long(number) => Ok(Cell::Long(*number)),
        Constant::Str(text) => Ok(Cell::Str(SharedText::from_text(alloc, text.copy(alloc)?)?)),
        Constant::Boolean(truth) => Ok(Cell::Boolean(*truth)),
        Constant::Nil => Ok(Cell::Nil),
    }
}

/// Self comes to the top; nil in main.
pub fn push_me(body: &mut Body) -> Result<(), Stopped>
    requires { body.old.at + 1 < 2 ^ 64 }
    ensures did { (s : Setting) (h : Heap) → Did s h body.old result body.new (ops.Me) }
    ensures own { (s : Setting) (os : Objects) → IsOwnBody s os body.old → OnOk result (IsOwnBody s os body.new) }
{
    push(&mut body.operands, own_cell(body.me))?;
    body.at += 1;
    Ok(())
}

fn own_cell(me: Option<Reference>) -> Cell
    ensures { result ≡ me_cell me }
{
    match me {
        Some(reference) => refer(reference),
        None => Cell::Nil,
    }
}

/// The class manager object comes to the top.
pub fn push_manager(body: &mut Body) -> Result<(), Stopped>
    requires { body.old.at + 1 < 2 ^ 64 }
    ensures did { (s : Setting) (h : Heap) → Did s h body.old result body.new (ops.Manager) }
    ensures own { (s : Setting) (os : Objects) → IsOwnBody s os body.old → OnOk result (IsOwnBody s os body.new) }
{
    push(&mut body.operands, Cell::Manager)?;
    body.at += 1;
    Ok(())
}

/// The top is taken off.
pub fn drop_top(body: &mut Body) -> Result<(), Stopped>
    requires { body.old.at + 1 < 2 ^ 64 }
    ensures did { (s : Setting) (h : Heap) → Did s h body.old result body.new (ops.Drop) }
    ensures own { (s : Setting) (os : Objects) → IsOwnBody s os body.old → OnOk result (IsOwnBody s os body.new) }
{
    drop(pop(&mut body.operands));
    body.at += 1;
    Ok(())
}
