//! The operand stack of a body: push and pop.

ghost use Rattle.som_interp_ops.specs.Cells.{lower_cells, top_cell};
ghost use Rattle.std.specs.Prelude.{◌≡◌, ◌++◌, ◌∷◌, [], OnOk};

use som_model::NoMemory;
use som_objects::Cell;

/// Takes the top operand off; nil where there is none.
pub fn pop(operands: &mut Vec<Cell>) -> Cell
    ensures cell { result ≡ top_cell operands.old.items }
    ensures rest { operands.new.items ≡ lower_cells operands.old.items }
{
    match operands.pop() {
        Some(cell) => cell,
        None => Cell::Nil,
    }
}

/// Puts an operand on top.
pub fn push(operands: &mut Vec<Cell>, cell: Cell) -> Result<(), NoMemory>
    ensures { OnOk result (operands.new.items ≡ operands.old.items ++ cell ∷ []) }
{
    operands.push(cell)?;
    Ok(())
}
