//! Makes the rows of the kernel's classes and an interface's, and marks the ancestors of a class.

ghost use Rattle.som_compat.specs.Conditions.{Conforms};
ghost use Rattle.som_compat.specs.Marks.{AreAbove, Marked};
ghost use Rattle.som_compat.specs.Views.{AreRows, IsRow, IsView, classes_of, interface};
ghost use Rattle.som_model.specs.declared.class.ClassFace.{ClassFace as Face};
ghost use Rattle.som_model.specs.declared.limits.TheConstants.{MAX_PARENTS};
ghost use Rattle.som_verify_classes.specs.Places.{face_at, key_at};
ghost use Rattle.std.specs.Prelude.{◌≡◌, ◌+◌, ◌<◌, ◌≤◌, List as Seq, ℕ, None, length, replicate, take};

use crate::lookup::{KERNEL_CLASSES, Lookup};
use crate::marks::mark_reached;
use crate::rows::{MOST_PARENTS, Row, row_of};
use som_model::MAX_LIBRARY_CLASSES;

/// The most classes, the kernel's counted.
pub const MOST_CLASSES: usize = MAX_LIBRARY_CLASSES as usize + KERNEL_CLASSES;

/// The classes of an interface by their places: the kernel's first.
#[derive(Clone, Copy)]
pub struct View<'a> {
    pub lookup: Lookup<'a>,
    pub rows: &'a [Row],
}

/// The rows of all classes, at the front of a longer list.
pub fn fill(lookup: &Lookup, rows: &mut [Row])
    requires conforms { Conforms (interface lookup.now.faces.now) }
    requires long { length lookup.now.faces.now + 4 ≤ length rows.old }
    ensures { AreRows (classes_of lookup.now.faces.now) (take (length lookup.now.faces.now + 4) rows.new) }
{
    for place in 0..lookup.faces.len() + KERNEL_CLASSES {
        rows[place] = row_at(lookup, place);
    }
}

fn row_at(lookup: &Lookup, place: usize) -> Row
    requires conforms { Conforms (interface lookup.now.faces.now) }
    requires place { place < length lookup.now.faces.now + 4 }
    ensures { IsRow (classes_of lookup.now.faces.now) (face_at (classes_of lookup.now.faces.now) place) result }
{
    if place < KERNEL_CLASSES {
        kernel_row(place)
    } else {
        row_of(lookup, lookup.face(place))
    }
}

fn kernel_row(place: usize) -> Row
    requires { place < 4 }
    ensures { (faces : Seq Face) → IsRow (classes_of faces) (face_at (classes_of faces) place) result }
{
    if place == 0 {
        Row::EMPTY
    } else if place == 3 {
        single(1)
    } else {
        single(0)
    }
}

// The row of a class with one parent.
fn single(parent: u16) -> Row
    ensures numbers { result.numbers ≡ replicate MAX_PARENTS parent }
    ensures count { result.count ≡ 1 }
    ensures metaclass { result.metaclass ≡ None }
{
    Row {
        numbers: [parent; MOST_PARENTS],
        count: 1,
        metaclass: None,
    }
}

/// Marks the classes from which the class at a place descends.
pub fn ancestors_of(view: &View, place: usize) -> [bool; MOST_CLASSES]
    requires view { IsView view.now }
    requires place { place < length (classes_of view.now.lookup.faces.now) }
    ensures { AreAbove (classes_of view.now.lookup.faces.now) (key_at (classes_of view.now.lookup.faces.now) place) result }
{
    let mut marks = [false; MOST_CLASSES];
    mark_ancestors(view, place, &mut marks);
    marks
}

fn mark_ancestors(view: &View, place: usize, marks: &mut [bool])
    requires view { IsView view.now }
    requires place { place < length (classes_of view.now.lookup.faces.now) }
    requires long { length marks.old ≡ 4100 }
    requires clear { (k : ℕ) → Marked marks.old k → ⊥ }
    ensures { AreAbove (classes_of view.now.lookup.faces.now) (key_at (classes_of view.now.lookup.faces.now) place) marks.new }
{
    marks[place] = true;
    mark_reached(view.rows, place + 1, marks);
}
