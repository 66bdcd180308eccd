//! The instructions `as` and `isa`, which test the class of the top.

ghost use Rattle.som_code.specs.declared.instruction.Instruction.TheVariants as ops;
ghost use Rattle.som_interp_ops.specs.Cells.{top_cell};
ghost use Rattle.som_interp_ops.specs.Doing.{Did, HasClasses};
ghost use Rattle.som_semantics.specs.State.{Heap};
ghost use Rattle.som_objects.specs.Objects.{Objects};
ghost use Rattle.som_interp_state.specs.Own.{IsOwnBody};
ghost use Rattle.som_interp_state.specs.Settings.{Setting};
ghost use Rattle.som_interp_state.specs.Stored.{HoldsHeap};
ghost use Rattle.som_values.specs.Stored.{IsClassed, IsKept};
ghost use Rattle.std.specs.Prelude.{◌<◌, ◌+◌, ◌^◌, OnOk};

use crate::{pop, push};
use som_interp_state::Body;
use som_model::ClassKey;
use som_objects::{Cell, ObjectStore};
use som_values::{Classes, Stopped};

/// `as C`: nil passes; else the object has to be live and of class C or one that descends from it.
pub fn cast<C: Classes>(
    classes: &C,
    objects: &ObjectStore,
    class: &ClassKey,
    body: &mut Body,
) -> Result<(), Stopped>
    requires room { body.old.at + 1 < 2 ^ 64 }
    requires kept { IsKept objects.now (top_cell body.old.operands.items) }
    requires classed { IsClassed (C.keys classes.now) (C.made classes.now) objects.now (top_cell body.old.operands.items) }
    ensures did { (s : Setting) (h : Heap) → HasClasses (C.keys classes.now) (C.world classes.now) s.linked → IsOwnBody s objects.now body.old → HoldsHeap s.linked s.serials objects.now h
        → Did s h body.old result body.new (ops.Cast class.now) }
    ensures own { (s : Setting) (os : Objects) → IsOwnBody s os body.old → OnOk result (IsOwnBody s os body.new) }
{
    let operand = pop(&mut body.operands);
    som_values::cast(classes, objects, class, &operand)?;
    push(&mut body.operands, operand)?;
    body.at += 1;
    Ok(())
}

/// `isa(e, C)`: whether the object, which has to be live, is of class C or one that descends from it; FALSE for nil.
pub fn isa<C: Classes>(
    classes: &C,
    objects: &ObjectStore,
    class: &ClassKey,
    body: &mut Body,
) -> Result<(), Stopped>
    requires room { body.old.at + 1 < 2 ^ 64 }
    requires kept { IsKept objects.now (top_cell body.old.operands.items) }
    requires classed { IsClassed (C.keys classes.now) (C.made classes.now) objects.now (top_cell body.old.operands.items) }
    ensures did { (s : Setting) (h : Heap) → HasClasses (C.keys classes.now) (C.world classes.now) s.linked → IsOwnBody s objects.now body.old → HoldsHeap s.linked s.serials objects.now h
        → Did s h body.old result body.new (ops.Isa class.now) }
    ensures own { (s : Setting) (os : Objects) → IsOwnBody s os body.old → OnOk result (IsOwnBody s os body.new) }
{
    let operand = pop(&mut body.operands);
    let answer = som_values::isa(classes, objects, class, &operand)?;
    push(&mut body.operands, Cell::Boolean(answer))?;
    body.at += 1;
    Ok(())
}
