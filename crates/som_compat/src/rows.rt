//! The row of a class: its parents and metaclass by places, in an array of fixed length.

ghost use Rattle.som_compat.specs.Conditions.{IsCounted};
ghost use Rattle.som_compat.specs.Views.{IsRow, classes_of, numbers_of};
ghost use Rattle.som_model.specs.Lists.{Mem};
ghost use Rattle.som_model.specs.declared.key.ClassKey.{ClassKey as Key};
ghost use Rattle.som_model.specs.declared.limits.TheConstants.{MAX_LIBRARY_CLASSES, MAX_PARENTS};
ghost use Rattle.som_verify_classes.specs.Plainly.{IsAmong};
ghost use Rattle.std.specs.Prelude.{◌≡◌, ◌≤◌, length, Some};

use crate::lookup::Lookup;
use som_model::{ClassFace, MAX_PARENTS};

/// The most parents that a class has.
pub const MOST_PARENTS: usize = MAX_PARENTS as usize;

/// The places of a class's parents and of its metaclass.
#[derive(Clone, Copy)]
pub struct Row {
    pub numbers: [u16; MOST_PARENTS],
    pub count: usize,
    pub metaclass: Option<u16>,
}

impl Row {
    /// A class without parents.
    pub const EMPTY: Row = Row {
        numbers: [0; MOST_PARENTS],
        count: 0,
        metaclass: None,
    };

    /// The places of the parents in order, lent from the row.
    pub fn parents(&self) -> &[u16]
        ensures { result.now ≡ numbers_of self.now }
    {
        if self.count < MOST_PARENTS {
            &self.numbers[..self.count]
        } else {
            &self.numbers
        }
    }
}

/// The row of a class whose parents and metaclass are known.
pub fn row_of(lookup: &Lookup, face: &ClassFace) -> Row
    requires few { length lookup.now.faces.now ≤ MAX_LIBRARY_CLASSES }
    requires count { length face.now.parents ≤ MAX_PARENTS }
    requires parents { (k : Key) → Mem k face.now.parents → IsAmong (classes_of lookup.now.faces.now) k }
    requires metaclass { (k : Key) → face.now.metaclass ≡ Some k → IsAmong (classes_of lookup.now.faces.now) k }
    ensures { IsRow (classes_of lookup.now.faces.now) face.now result }
{
    let mut numbers = [0u16; MOST_PARENTS];
    let mut count = 0usize;
    for parent in face.parents.as_slice() {
        numbers[count] = lookup.known_place(parent) as u16;
        count += 1;
    }
    let metaclass = match &face.metaclass {
        Some(key) => Some(lookup.known_place(key) as u16),
        None => None,
    };
    Row {
        numbers,
        count,
        metaclass,
    }
}
