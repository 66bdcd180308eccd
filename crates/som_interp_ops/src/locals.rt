//! Instructions on locals: get, set, and the end of a scope.

ghost use Rattle.som_code.specs.declared.instruction.Instruction.TheVariants as ops;
ghost use Rattle.som_interp_ops.specs.Cells.{local_cell, set_cell};
ghost use Rattle.som_interp_ops.specs.Doing.{Did};
ghost use Rattle.som_semantics.specs.State.{Heap};
ghost use Rattle.som_objects.specs.Objects.{Objects};
ghost use Rattle.som_interp_state.specs.Own.{IsOwnBody};
ghost use Rattle.som_interp_state.specs.Settings.{Setting};
ghost use Rattle.std.specs.Prelude.{◌≡◌, ◌<◌, ◌+◌, ◌^◌, IfOk, OnOk};

use crate::{pop, push};
use som_interp_state::Body;
use som_model::NoMemory;
use som_objects::Cell;
use som_values::{Stopped, copy_cell};
use std::mem;

/// The local of a place comes to the top; nil where there is none.
pub fn get(place: usize, body: &mut Body) -> Result<(), Stopped>
    requires { body.old.at + 1 < 2 ^ 64 }
    ensures did { (s : Setting) (h : Heap) → Did s h body.old result body.new (ops.Get place) }
    ensures own { (s : Setting) (os : Objects) → IsOwnBody s os body.old → OnOk result (IsOwnBody s os body.new) }
{
    push(&mut body.operands, local(&body.locals, place)?)?;
    body.at += 1;
    Ok(())
}

fn local(locals: &Vec<Cell>, place: usize) -> Result<Cell, NoMemory>
    ensures { IfOk result (λ cell. cell ≡ local_cell locals.now.items place) }
{
    if place < locals.len() {
        copy_cell(&locals[place])
    } else {
        Ok(Cell::Nil)
    }
}

/// The local of a place takes the top; one more is visible where the place is their number.
pub fn set(place: usize, body: &mut Body) -> Result<(), Stopped>
    requires { body.old.at + 1 < 2 ^ 64 }
    ensures did { (s : Setting) (h : Heap) → Did s h body.old result body.new (ops.Set place) }
    ensures own { (s : Setting) (os : Objects) → IsOwnBody s os body.old → OnOk result (IsOwnBody s os body.new) }
{
    let cell = pop(&mut body.operands);
    put(&mut body.locals, place, cell)?;
    body.at += 1;
    Ok(())
}

fn put(locals: &mut Vec<Cell>, place: usize, cell: Cell) -> Result<(), NoMemory>
    ensures { OnOk result (locals.new.items ≡ set_cell locals.old.items place cell) }
{
    if place < locals.len() {
        drop(mem::replace(&mut locals[place], cell));
    } else if place == locals.len() {
        locals.push(cell)?;
    }
    Ok(())
}

/// The locals from a place on are no longer visible.
pub fn cut(place: usize, body: &mut Body) -> Result<(), Stopped>
    requires { body.old.at + 1 < 2 ^ 64 }
    ensures did { (s : Setting) (h : Heap) → Did s h body.old result body.new (ops.Cut place) }
    ensures own { (s : Setting) (os : Objects) → IsOwnBody s os body.old → OnOk result (IsOwnBody s os body.new) }
{
    body.locals.truncate(place);
    body.at += 1;
    Ok(())
}
