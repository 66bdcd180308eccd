//! Calls of the host's procedures on cells.

ghost use Rattle.som_semantics.specs.Values.{host as host_value, number_of};
ghost use Rattle.som_objects.specs.Objects.{Objects};
ghost use Rattle.som_values.specs.Shown.{IsSeen, Showing, shown};
ghost use Rattle.som_values.specs.Stored.{IsKept};
ghost use Rattle.std.specs.Prelude.{◌≡◌};

use som_host::HostTable;
use som_model::HostCode;
use som_objects::Cell;

/// What a procedure of the host answers for two values. One that is no number counts as 0.
pub fn host(table: &HostTable, code: HostCode, a: &Cell, b: &Cell) -> Cell
    ensures means { (s : Showing) → shown s result ≡ host_value code (shown s a.now) (shown s b.now) }
    ensures seen { (s : Showing) → IsSeen s result }
    ensures kept { (os : Objects) → IsKept os result }
{
    Cell::Long(table.call(code, number(a), number(b)))
}

// The number of a value; 0 where it is none.
fn number(cell: &Cell) -> i32
    ensures { (s : Showing) → result ≡ number_of (shown s cell.now) }
{
    match cell {
        Cell::Long(number) => *number,
        Cell::Boolean(_)
        | Cell::Str(_)
        | Cell::EmptyStr
        | Cell::Nil
        | Cell::Object(_)
        | Cell::Class(_)
        | Cell::Manager => 0,
    }
}
