//! References as a type of their own, taken out of cells and put into them.

ghost use Rattle.som_values.specs.Shown.{cell_of, reference_in};
ghost use Rattle.std.specs.Prelude.{◌≡◌};

use som_objects::{Cell, ObjRef};
use som_tables::ClassNo;

/// A reference: to an object, to the class object of a class, or to the class manager object.
#[derive(Clone, Copy)]
pub enum Reference {
    Object(ObjRef),
    Class(ClassNo),
    Manager,
}

/// The reference that a cell holds, if it holds one.
pub fn referred(cell: &Cell) -> Option<Reference>
    ensures { result ≡ reference_in cell.now }
{
    match cell {
        Cell::Object(object) => Some(Reference::Object(*object)),
        Cell::Class(class) => Some(Reference::Class(*class)),
        Cell::Manager => Some(Reference::Manager),
        Cell::Long(_) | Cell::Boolean(_) | Cell::Str(_) | Cell::EmptyStr | Cell::Nil => None,
    }
}

/// The cell that holds a reference.
pub fn refer(reference: Reference) -> Cell
    ensures { result ≡ cell_of reference }
{
    match reference {
        Reference::Object(object) => Cell::Object(object),
        Reference::Class(class) => Cell::Class(class),
        Reference::Manager => Cell::Manager,
    }
}
