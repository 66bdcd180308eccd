//! What a kernel says of variables, in the words of a task.

ghost use Rattle.som_interp_state.specs.Asked.{AreNewCells};
ghost use Rattle.som_interp_objects.specs.Cells.{IsPlain};
ghost use Rattle.som_model.specs.Rules.{is_void};
ghost use Rattle.som_semantics.specs.State.{zeros};
ghost use Rattle.som_values.specs.Shown.{IsNumbered, key_of};
ghost use Rattle.std.specs.Prelude.{◌≡◌, IfOk, Some, false, true};

use crate::zero_cell;
use som_interp_state::Runtime;
use som_model::{List, NoMemory};
use som_objects::Cell;
use som_tables::ClassNo;
use std::alloc::Global;

/// The place of a variable of a class among the cells of an object, by the object's class.
pub(crate) fn place_of<R: Runtime>(
    runtime: &R,
    object: ClassNo,
    class: ClassNo,
    variable: u8,
) -> Option<u32>
    requires object { IsNumbered (R.linked runtime.now).keys object }
    requires made { R.made runtime.now (key_of (R.linked runtime.now).keys object) ≡ true }
    requires class { IsNumbered (R.linked runtime.now).keys class }
    ensures { result ≡ (R.linked runtime.now).variables object (key_of (R.linked runtime.now).keys class) variable }
{
    runtime.know();
    runtime.place(object, class, variable)
}

/// The place of a variable that an object has, since its class descends from the variable's.
pub(crate) fn sure_place<R: Runtime>(
    runtime: &R,
    object: ClassNo,
    class: ClassNo,
    variable: u8,
) -> u32
    requires object { IsNumbered (R.linked runtime.now).keys object }
    requires made { R.made runtime.now (key_of (R.linked runtime.now).keys object) ≡ true }
    requires class { IsNumbered (R.linked runtime.now).keys class }
    requires below { (R.linked runtime.now).world.is_a (key_of (R.linked runtime.now).keys object) (key_of (R.linked runtime.now).keys class) ≡ true }
    requires variable { is_void ((R.linked runtime.now).world.variable (key_of (R.linked runtime.now).keys class) variable) ≡ false }
    ensures { (R.linked runtime.now).variables object (key_of (R.linked runtime.now).keys class) variable ≡ Some result }
{
    runtime.know();
    match runtime.place(object, class, variable) {
        Some(place) => place,
        None => unreachable!(),
    }
}

/// The cell of a variable's zero value.
pub(crate) fn zero_variable<R: Runtime>(runtime: &R, class: ClassNo, variable: u8) -> Cell
    requires { IsNumbered (R.linked runtime.now).keys class }
    ensures { IsPlain result (zeros (R.linked runtime.now).world (key_of (R.linked runtime.now).keys class) variable) }
{
    runtime.know();
    zero_cell(runtime.zero(class, variable))
}

/// The cells of a new object of a class, but for a proxy's target, as the kernel says them.
pub(crate) fn new_cells<R: Runtime>(
    alloc: Global,
    runtime: &R,
    class: ClassNo,
) -> Result<List<Cell>, NoMemory>
    requires numbered { IsNumbered (R.linked runtime.now).keys class }
    requires made { R.made runtime.now (key_of (R.linked runtime.now).keys class) ≡ true }
    ensures { IfOk result (AreNewCells (R.linked runtime.now).keys (R.linked runtime.now).world (R.linked runtime.now) class) }
{
    runtime.know();
    runtime.zero_cells(alloc, class)
}

/// The class of a class object, which has its variables.
pub(crate) fn metaclass_of<R: Runtime>(runtime: &R, class: ClassNo) -> ClassNo
    requires numbered { IsNumbered (R.linked runtime.now).keys class }
    requires made { R.made runtime.now (key_of (R.linked runtime.now).keys class) ≡ true }
    ensures numbered { IsNumbered (R.linked runtime.now).keys result }
    ensures made { R.made runtime.now (key_of (R.linked runtime.now).keys result) ≡ true }
    ensures key { key_of (R.linked runtime.now).keys result ≡ (R.linked runtime.now).world.meta (key_of (R.linked runtime.now).keys class) }
    ensures variables { (R.linked runtime.now).statics class ≡ (R.linked runtime.now).variables result }
{
    runtime.know();
    runtime.metaclass(class)
}
