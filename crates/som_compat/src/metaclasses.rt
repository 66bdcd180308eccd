//! Checks that the metaclass of a newer class descends from the one that the older declares (K6).

ghost use Rattle.som_compat.specs.Marks.{Above, AreAbove, Marked};
ghost use Rattle.som_compat.specs.Metaclasses.{IsDeclared};
ghost use Rattle.som_compat.specs.Told.{metaclass_marked, some_declares, told_by};
ghost use Rattle.som_compat.specs.Views.{IsView, classes_of, shown};
ghost use Rattle.som_model.specs.Classes.{is_a};
ghost use Rattle.som_model.specs.Compatible.{k6};
ghost use Rattle.som_model.specs.Lists.{first};
ghost use Rattle.som_model.specs.Metaclass.{meta};
ghost use Rattle.som_model.specs.declared.key.ClassKey.{ClassKey as Key};
ghost use Rattle.som_verify_classes.specs.Places.{key_at};
ghost use Rattle.som_verify_classes.specs.Plainly.{IsAmong};
ghost use Rattle.std.specs.Prelude.{◌≡◌, ◌↔◌, ◌<◌, ◌≤◌, ℕ, Some, length};

use crate::breach::{Breach, declared_text};
use crate::marks::{is_marked, mark_below};
use crate::rows::Row;
use crate::view::{MOST_CLASSES, View};
use som_model::{ClassFace, ClassKey};

/// The place of SOMClass.
const SOM_CLASS: usize = 1;

/// K6: the metaclass of a class in the new descends from the one that the old class declares. The marks are
/// those of the class's ancestors in the new.
pub fn keeps_metaclass<'a>(
    new: &View,
    marks: &[bool],
    class: &'a ClassFace,
) -> Result<(), Breach<'a>>
    requires new { IsView new.now }
    requires known { IsAmong (classes_of new.now.lookup.faces.now) (shown class.now).key }
    requires marks { AreAbove (classes_of new.now.lookup.faces.now) (shown class.now).key marks.now }
    requires declared { (k : Key) → class.now.metaclass ≡ Some k → IsDeclared k }
    ensures { told_by result ≡ first (k6 (classes_of new.now.lookup.faces.now) (shown class.now)) }
{
    match &class.metaclass {
        None => Ok(()),
        Some(key) => {
            if metaclass_descends(new, marks, key) {
                Ok(())
            } else {
                Err(Breach {
                    rule: 6,
                    class: &class.name,
                    name: declared_text(key),
                    place: 0,
                })
            }
        }
    }
}

// Whether the metaclass of a class descends from the class of a key, by the marks of the class's ancestors.
fn metaclass_descends(view: &View, marks: &[bool], key: &ClassKey) -> bool
    requires view { IsView view.now }
    requires declared { IsDeclared key.now }
    ensures { (x : Key) → IsAmong (classes_of view.now.lookup.faces.now) x → AreAbove (classes_of view.now.lookup.faces.now) x marks.now →
        result ≡ is_a (classes_of view.now.lookup.faces.now) (meta (classes_of view.now.lookup.faces.now) x) key.now }
{
    match view.lookup.place(key) {
        Some(top) => declares_below(view, marks, top),
        None => false,
    }
}

// Whether SOMClass or a metaclass that a marked class declares descends from the class at a place.
fn declares_below(view: &View, marks: &[bool], top: usize) -> bool
    requires view { IsView view.now }
    requires top { top < length (classes_of view.now.lookup.faces.now) }
    ensures { (x : Key) → IsAmong (classes_of view.now.lookup.faces.now) x → AreAbove (classes_of view.now.lookup.faces.now) x marks.now →
        result ≡ is_a (classes_of view.now.lookup.faces.now) (meta (classes_of view.now.lookup.faces.now) x) (key_at (classes_of view.now.lookup.faces.now) top) }
{
    let below = classes_below(view, top);
    if is_marked(&below, SOM_CLASS) {
        return true;
    }
    some_class_declares(view.rows, marks, &below)
}

// Marks the classes that descend from the one at a place.
fn classes_below(view: &View, top: usize) -> [bool; MOST_CLASSES]
    requires view { IsView view.now }
    requires top { top < length (classes_of view.now.lookup.faces.now) }
    ensures { (k : ℕ) → k < length view.now.rows.now → Marked result k ↔ Above view.now.rows.now k top }
{
    let mut below = [false; MOST_CLASSES];
    mark_below(view.rows, top, &mut below);
    below
}

// Whether a marked class declares a metaclass that is marked below.
fn some_class_declares(rows: &[Row], marks: &[bool], below: &[bool]) -> bool
    requires { length rows.now ≤ 4100 }
    ensures { result ≡ some_declares 0 rows.now marks.now below.now }
{
    let mut rest = rows;
    let mut place = 0usize;
    while let [row, later @ ..] = rest {
        if is_marked(marks, place) && has_marked_metaclass(row, below) {
            return true;
        }
        place += 1;
        rest = later;
    }
    false
}

fn has_marked_metaclass(row: &Row, below: &[bool]) -> bool
    ensures { result ≡ metaclass_marked row.now.metaclass below.now }
{
    match row.metaclass {
        Some(place) => is_marked(below, place as usize),
        None => false,
    }
}
