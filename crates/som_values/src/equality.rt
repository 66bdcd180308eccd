//! Equality of values.

ghost use Rattle.som_semantics.specs.State.{same_value};
ghost use Rattle.som_values.specs.Shown.{AreApart, IsSeen, Showing, shown};
ghost use Rattle.std.specs.Prelude.{◌≡◌};

use som_objects::Cell;

/// Whether two values are one: numbers, booleans and texts by what they are, and references by what they refer to.
pub fn same(a: &Cell, b: &Cell) -> bool
    ensures { (s : Showing) → AreApart s.keys → IsSeen s a.now → IsSeen s b.now → result ≡ same_value (shown s a.now) (shown s b.now) }
{
    match (a, b) {
        (Cell::Long(x), Cell::Long(y)) => x == y,
        (Cell::Boolean(x), Cell::Boolean(y)) => x == y,
        (Cell::Str(x), Cell::Str(y)) => x.as_slice() == y.as_slice(),
        (Cell::Str(x), Cell::EmptyStr) => x.as_slice().is_empty(),
        (Cell::EmptyStr, Cell::Str(y)) => y.as_slice().is_empty(),
        (Cell::EmptyStr, Cell::EmptyStr) => true,
        (Cell::Nil, Cell::Nil) => true,
        (Cell::Object(x), Cell::Object(y)) => x.serial == y.serial,
        (Cell::Class(x), Cell::Class(y)) => x == y,
        (Cell::Manager, Cell::Manager) => true,
        _ => false,
    }
}
