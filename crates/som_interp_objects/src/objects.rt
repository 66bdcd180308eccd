//! Variables of objects, read and written in the object store.

ghost use Rattle.som_model.specs.Rules.{is_void};
ghost use Rattle.som_objects.specs.Objects.{HasClass, InRange, IsKnown, KeepsKnown};
ghost use Rattle.som_semantics.specs.State.{zeros};
ghost use Rattle.som_values.specs.Shown.{IsNumbered, key_of};
ghost use Rattle.som_interp_objects.specs.Cells.{IsAt};
ghost use Rattle.som_interp_objects.specs.Objects.{IsCell, IsOfClass, IsOfObject, IsWhole, IsWritten};
ghost use Rattle.std.specs.Prelude.{◌≡◌, ◌<◌, ℕ, IfOk, OnErr, Some, false, length, true};

use crate::kernel::{place_of, sure_place, zero_variable};
use som_interp_state::Runtime;
use som_model::{Fault, NoMemory};
use som_objects::{Cell, ObjRef, ObjectStore};
use som_tables::ClassNo;
use som_values::{Stopped, copy_cell};

/// The cell at a place of an object, or the fault Freed.
pub fn read_cell(objects: &ObjectStore, object: &ObjRef, place: u32) -> Result<Cell, Stopped>
    requires known { IsKnown objects.now object.now }
    requires place { InRange objects.now object.now place }
    ensures { IsCell objects.now object.now place result }
{
    match objects.read(object, place) {
        Ok(cell) => Ok(copy_cell(cell)?),
        Err(_) => Err(Stopped::Fault(Fault::Freed)),
    }
}

/// A variable of an object: what its cell holds, or the zero value where the object has no such variable. The fault
/// is Freed.
pub(crate) fn read_object<R: Runtime>(
    runtime: &R,
    objects: &ObjectStore,
    object: &ObjRef,
    class: ClassNo,
    variable: u8,
) -> Result<Cell, Stopped>
    requires class { IsNumbered (R.linked runtime.now).keys class }
    requires known { IsKnown objects.now object.now }
    requires whole { IsWhole (R.linked runtime.now) (R.made runtime.now) objects.now object.now }
    ensures { IsOfObject (R.linked runtime.now) objects.now object.now (key_of (R.linked runtime.now).keys class) variable result }
{
    match objects.class_and_cells(object) {
        Ok((of, cells)) => Ok(read_live(runtime, cells, of, class, variable)?),
        Err(_) => Err(Stopped::Fault(Fault::Freed)),
    }
}

// The variable of a live object of this class, among its cells.
fn read_live<R: Runtime>(
    runtime: &R,
    cells: &[Cell],
    of: ClassNo,
    class: ClassNo,
    variable: u8,
) -> Result<Cell, NoMemory>
    requires class { IsNumbered (R.linked runtime.now).keys class }
    requires of { IsNumbered (R.linked runtime.now).keys of }
    requires made { R.made runtime.now (key_of (R.linked runtime.now).keys of) ≡ true }
    requires cells { (p : ℕ) → (R.linked runtime.now).variables of (key_of (R.linked runtime.now).keys class) variable ≡ Some p → p < length cells.now }
    ensures { IfOk result (IsAt ((R.linked runtime.now).variables of (key_of (R.linked runtime.now).keys class) variable) cells.now (zeros (R.linked runtime.now).world (key_of (R.linked runtime.now).keys class) variable)) }
{
    match place_of(runtime, of, class, variable) {
        Some(place) => copy_cell(&cells[place as usize]),
        None => Ok(zero_variable(runtime, class, variable)),
    }
}

/// A variable of an object gets a value in its cell. The fault is Freed.
pub(crate) fn write_object<R: Runtime>(
    runtime: &R,
    objects: &mut ObjectStore,
    object: &ObjRef,
    class: ClassNo,
    variable: u8,
    cell: Cell,
) -> Result<(), Stopped>
    requires class { IsNumbered (R.linked runtime.now).keys class }
    requires known { IsKnown objects.old object.now }
    requires whole { IsWhole (R.linked runtime.now) (R.made runtime.now) objects.old object.now }
    requires below { IsOfClass (R.linked runtime.now) objects.old object.now (key_of (R.linked runtime.now).keys class) }
    requires variable { is_void ((R.linked runtime.now).world.variable (key_of (R.linked runtime.now).keys class) variable) ≡ false }
    ensures written { IsWritten (R.linked runtime.now) objects.old objects.new object.now (key_of (R.linked runtime.now).keys class) variable cell result }
    ensures err { OnErr result (objects.new ≡ objects.old) }
    ensures keeps { KeepsKnown objects.old objects.new }
{
    match objects.class(object) {
        Ok(of) => write_live(runtime, objects, object, of, class, variable, cell),
        Err(_) => Err(Stopped::Fault(Fault::Freed)),
    }
}

// The variable of a live object of this class gets the value.
fn write_live<R: Runtime>(
    runtime: &R,
    objects: &mut ObjectStore,
    object: &ObjRef,
    of: ClassNo,
    class: ClassNo,
    variable: u8,
    cell: Cell,
) -> Result<(), Stopped>
    requires class { IsNumbered (R.linked runtime.now).keys class }
    requires known { IsKnown objects.old object.now }
    requires whole { IsWhole (R.linked runtime.now) (R.made runtime.now) objects.old object.now }
    requires below { IsOfClass (R.linked runtime.now) objects.old object.now (key_of (R.linked runtime.now).keys class) }
    requires variable { is_void ((R.linked runtime.now).world.variable (key_of (R.linked runtime.now).keys class) variable) ≡ false }
    requires of { HasClass objects.old object.now of }
    ensures written { IsWritten (R.linked runtime.now) objects.old objects.new object.now (key_of (R.linked runtime.now).keys class) variable cell result }
    ensures err { OnErr result (objects.new ≡ objects.old) }
    ensures keeps { KeepsKnown objects.old objects.new }
{
    let place = sure_place(runtime, of, class, variable);
    match objects.write(object, place, cell) {
        Ok(()) => Ok(()),
        Err(_) => Err(Stopped::Fault(Fault::Freed)),
    }
}
