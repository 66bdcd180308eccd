//! Checks that the new metaclass of a class descends from the one that it declared (K6).

ghost use Rattle.som_compat.specs.Marks.{Marked, some_marked};
ghost use Rattle.som_compat.specs.Told.{metaclass_marked, told_by};
ghost use Rattle.som_compat_levels.specs.Pairs.{ArePaired};
ghost use Rattle.som_compat_levels.specs.Tables.{AreLevels, classes_in};
ghost use Rattle.som_model.specs.Ancestors.{Descends};
ghost use Rattle.som_model.specs.Classes.{is_a};
ghost use Rattle.som_model.specs.Compatible.{k6};
ghost use Rattle.som_model.specs.Lists.{first, some};
ghost use Rattle.som_model.specs.Metaclass.{meta};
ghost use Rattle.som_model_laws.specs.Rows.{AreLow, rows_of};
ghost use Rattle.som_verify_classes.specs.Places.{class_of_place, key_at};
ghost use Rattle.std.specs.Prelude.{◌≡◌, ◌==◌, ◌↔◌, ◌+◌, ◌<◌, ◌||◌, ℕ, None, false, length, slice_index_or};

use crate::ancestors::class_name;
use crate::numbers::number_at;
use crate::tables::Levels;
use som_compat::Breach;
use som_model::List;
use som_verify_classes::{SOM_CLASS, item};

/// K6: the new metaclass of the class at a place descends from the one that the old class declares.
pub fn keeps_metaclass<'a>(
    old: &Levels<'a>,
    new: &Levels,
    pairs: &[usize],
    below: &mut [bool],
    place: usize,
) -> Result<(), Breach<'a>>
    requires old { AreLevels old.now }
    requires new { AreLevels new.now }
    requires place { place < length (classes_in old.now) }
    requires pairs { ArePaired (classes_in old.now) (classes_in new.now) (place + 1) pairs.now }
    requires long { length below.old ≡ length (classes_in new.now) }
    ensures tells { told_by result ≡ first (k6 (classes_in new.now) (class_of_place (classes_in old.now) place)) }
    ensures long { length below.new ≡ length below.old }
{
    match metaclass_at(&old.tables.metaclasses, place) {
        None => Ok(()),
        Some(metaclass) => {
            if metaclass_descends(
                new,
                below,
                number_at(pairs, place),
                number_at(pairs, metaclass),
            ) {
                Ok(())
            } else {
                Err(Breach {
                    rule: 6,
                    class: class_name(old, place),
                    name: Some(class_name(old, metaclass)),
                    place: 0,
                })
            }
        }
    }
}

// Whether the metaclass of the class at a place descends from the class at another.
fn metaclass_descends(levels: &Levels, below: &mut [bool], place: usize, top: usize) -> bool
    requires levels { AreLevels levels.now }
    requires place { place < length (classes_in levels.now) }
    requires top { top < length (classes_in levels.now) }
    requires long { length below.old ≡ length (classes_in levels.now) }
    ensures is { result ≡ is_a (classes_in levels.now) (meta (classes_in levels.now) (key_at (classes_in levels.now) place)) (key_at (classes_in levels.now) top) }
    ensures long { length below.new ≡ length below.old }
{
    mark_below(&levels.tables.parents, top, below);
    is_marked(below, SOM_CLASS)
        || some_declares(
            item(&levels.tables.ancestors, place),
            &levels.tables.metaclasses,
            below,
        )
}

// Marks the classes that descend from the one at a place, and no others.
fn mark_below(rows: &[List<usize>], top: usize, below: &mut [bool])
    requires low { AreLow rows.now }
    requires long { length below.old ≡ length rows.now }
    ensures below { (k : ℕ) → k < length rows.now → Marked below.new k ↔ Descends (rows_of rows.now) k top }
    ensures long { length below.new ≡ length below.old }
{
    for place in 0..rows.len() {
        below[place] = is_below(item(rows, place), below, place, top);
    }
}

// Whether a class is the one at the top, or one of its parents is marked.
fn is_below(row: &[usize], below: &[bool], place: usize, top: usize) -> bool
    ensures { result ≡ ((place == top) || some_marked row.now below.now) }
{
    place == top || is_any_marked(row, below)
}

fn is_any_marked(row: &[usize], marks: &[bool]) -> bool
    ensures { result ≡ some_marked row.now marks.now }
{
    for place in row {
        if is_marked(marks, *place) {
            return true;
        }
    }
    false
}

fn is_marked(marks: &[bool], place: usize) -> bool
    ensures { result ≡ slice_index_or marks.now place false }
{
    place < marks.len() && marks[place]
}

// Whether one of these classes declares a metaclass that is marked.
fn some_declares(list: &[usize], metaclasses: &[Option<usize>], below: &[bool]) -> bool
    ensures { result ≡ some (λ a. metaclass_marked (slice_index_or metaclasses.now a None) below.now) list.now }
{
    for place in list {
        if is_metaclass_marked(metaclasses, *place, below) {
            return true;
        }
    }
    false
}

fn is_metaclass_marked(metaclasses: &[Option<usize>], place: usize, below: &[bool]) -> bool
    ensures { result ≡ metaclass_marked (slice_index_or metaclasses.now place None) below.now }
{
    match metaclass_at(metaclasses, place) {
        Some(metaclass) => is_marked(below, metaclass),
        None => false,
    }
}

fn metaclass_at(metaclasses: &[Option<usize>], place: usize) -> Option<usize>
    ensures { result ≡ slice_index_or metaclasses.now place None }
{
    match metaclasses.get(place) {
        Some(metaclass) => *metaclass,
        None => None,
    }
}
