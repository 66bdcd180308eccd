//! Copies of cells, and zero values by type.

ghost use Rattle.som_semantics.specs.State.{zero_of};
ghost use Rattle.som_objects.specs.Objects.{Objects};
ghost use Rattle.som_values.specs.Shown.{IsSeen, Showing, shown};
ghost use Rattle.som_values.specs.Stored.{IsKept};
ghost use Rattle.som_values.specs.Zeros.{AreZeros, kinds_of};
ghost use Rattle.som_model.specs.declared.key.ValueType.{ValueType as Kind};
ghost use Rattle.std.specs.Prelude.{◌≡◌, ◌++◌, IfOk, List as Seq, OnOk};

use som_model::{List, NoMemory, ValueType, Variable};
use som_objects::Cell;

/// An equal cell. A text is shared with it, so this takes no memory; where no further copy can be counted, memory is wanting.
pub fn copy_cell(cell: &Cell) -> Result<Cell, NoMemory>
    ensures { IfOk result (λ copy. copy ≡ cell.now) }
{
    match cell {
        Cell::Long(number) => Ok(Cell::Long(*number)),
        Cell::Boolean(truth) => Ok(Cell::Boolean(*truth)),
        Cell::Str(text) => Ok(Cell::Str(text.copy()?)),
        Cell::EmptyStr => Ok(Cell::EmptyStr),
        Cell::Nil => Ok(Cell::Nil),
        Cell::Object(object) => Ok(Cell::Object(*object)),
        Cell::Class(class) => Ok(Cell::Class(*class)),
        Cell::Manager => Ok(Cell::Manager),
    }
}

/// What a variable of a type begins with. It takes no memory.
pub fn zero(kind: &ValueType) -> Cell
    ensures means { (s : Showing) → shown s result ≡ zero_of kind.now }
    ensures seen { (s : Showing) → IsSeen s result }
    ensures kept { (os : Objects) → IsKept os result }
{
    match kind {
        ValueType::Void => Cell::Nil,
        ValueType::Long => Cell::Long(0),
        ValueType::Boolean => Cell::Boolean(false),
        ValueType::Str => Cell::EmptyStr,
        ValueType::Class(_) => Cell::Nil,
    }
}

/// Adds the zero values of variables, in their order.
pub fn add_zeros(variables: &[Variable], cells: &mut List<Cell>) -> Result<(), NoMemory>
    ensures { (types : Seq Kind) → AreZeros types cells.old → OnOk result (AreZeros (types ++ kinds_of variables.now) cells.new) }
{
    for variable in variables {
        cells.push(zero(&variable.kind))?;
    }
    Ok(())
}
