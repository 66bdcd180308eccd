//! Zero values by type, and the cells of a new object.

ghost use Rattle.som_semantics.specs.State.{zero_of as zero_value};
ghost use Rattle.som_objects.specs.Objects.{Objects};
ghost use Rattle.som_interp_state.specs.Own.{IsOwn};
ghost use Rattle.som_interp_state.specs.Standing.{zero_shown};
ghost use Rattle.som_values.specs.Shown.{IsNumbered, Showing, key_of, shown};
ghost use Rattle.som_interp_objects.specs.Cells.{AreNew};
ghost use Rattle.std.specs.Prelude.{◌≡◌, IfOk, true};

use crate::kernel::new_cells;
use som_interp_state::{Runtime, Zero};
use som_model::{List, NoMemory, ValueType};
use som_objects::Cell;
use som_tables::ClassNo;
use std::alloc::Global;

/// The cell of a zero value, which takes no memory.
pub fn zero_cell(zero: Zero) -> Cell
    ensures means { (s : Showing) → shown s result ≡ zero_shown zero }
    ensures own { (s : Showing) (os : Objects) → IsOwn s os result }
{
    match zero {
        Zero::Nil => Cell::Nil,
        Zero::Long => Cell::Long(0),
        Zero::Boolean => Cell::Boolean(false),
        Zero::Text => Cell::EmptyStr,
    }
}

/// The zero value of a type.
pub fn zero_of(kind: &ValueType) -> Zero
    ensures { zero_shown result ≡ zero_value kind.now }
{
    match kind {
        ValueType::Long => Zero::Long,
        ValueType::Boolean => Zero::Boolean,
        ValueType::Str => Zero::Text,
        ValueType::Void | ValueType::Class(_) => Zero::Nil,
    }
}

/// The cells of a new object of a class, but for a proxy's target.
pub fn zero_cells<R: Runtime>(
    alloc: Global,
    runtime: &R,
    class: ClassNo,
) -> Result<List<Cell>, NoMemory>
    requires numbered { IsNumbered (R.linked runtime.now).keys class }
    requires made { R.made runtime.now (key_of (R.linked runtime.now).keys class) ≡ true }
    ensures { IfOk result (AreNew (R.linked runtime.now) class) }
{
    new_cells(alloc, runtime, class)
}
