//! Checks that a class of the new keeps the ancestors of the old one (K3).

ghost use Rattle.som_compat.specs.Told.{told_by};
ghost use Rattle.som_compat_levels.specs.Pairs.{AreAbove, ArePaired};
ghost use Rattle.som_compat_levels.specs.Tables.{AreLevels, classes_in};
ghost use Rattle.som_model.specs.Compatible.{k3};
ghost use Rattle.som_model.specs.Lists.{Mem, first};
ghost use Rattle.som_verify_classes.specs.Places.{class_of_place, face_at, key_at};
ghost use Rattle.std.specs.Prelude.{◌≡◌, ◌↔◌, ◌+◌, ◌<◌, ◌≤◌, ℕ, length, slice_index_or};

use crate::numbers::{number_at, set_number};
use crate::tables::Levels;
use som_compat::Breach;
use som_model::Text;
use som_verify_classes::item;

/// Marks the classes from which the class at a place descends by a number that is greater than all marks.
pub fn mark_ancestors(levels: &Levels, place: usize, marks: &mut [usize], mark: usize)
    requires levels { AreLevels levels.now }
    requires place { place < length (classes_in levels.now) }
    requires long { length marks.old ≡ length (classes_in levels.now) }
    requires fresh { (k : ℕ) → slice_index_or marks.old k 0 < mark }
    ensures above { AreAbove (classes_in levels.now) (key_at (classes_in levels.now) place) marks.new mark }
    ensures below { (k : ℕ) → slice_index_or marks.new k 0 < mark + 1 }
{
    mark_all(item(&levels.tables.ancestors, place), marks, mark);
}

fn mark_all(list: &[usize], marks: &mut [usize], mark: usize)
    requires within { (a : ℕ) → Mem a list.now → a < length marks.old }
    requires fresh { (k : ℕ) → slice_index_or marks.old k 0 < mark }
    ensures marked { (k : ℕ) → (slice_index_or marks.new k 0 ≡ mark) ↔ Mem k list.now }
    ensures below { (k : ℕ) → slice_index_or marks.new k 0 < mark + 1 }
    ensures long { length marks.new ≡ length marks.old }
{
    for place in list {
        set_number(marks, *place, mark);
    }
}

/// K3: the classes from which the class at a place descends in the old have the mark in the new.
pub fn keeps_ancestors<'a>(
    old: &Levels<'a>,
    new: &Levels,
    pairs: &[usize],
    marks: &[usize],
    mark: usize,
    place: usize,
) -> Result<(), Breach<'a>>
    requires old { AreLevels old.now }
    requires new { AreLevels new.now }
    requires place { place < length (classes_in old.now) }
    requires pairs { ArePaired (classes_in old.now) (classes_in new.now) (place + 1) pairs.now }
    requires marks { AreAbove (classes_in new.now) (key_at (classes_in old.now) place) marks.now mark }
    ensures { told_by result ≡ first (k3 (classes_in old.now) (classes_in new.now) (class_of_place (classes_in old.now) place)) }
{
    let list = item(&old.tables.ancestors, place);
    for number in 0..list.len() {
        let ancestor = number_at(list, number);
        if number_at(marks, number_at(pairs, ancestor)) != mark {
            return Err(Breach {
                rule: 3,
                class: class_name(old, place),
                name: Some(class_name(old, ancestor)),
                place: number as u32,
            });
        }
    }
    Ok(())
}

/// The name of the class at a place.
pub fn class_name<'a>(levels: &Levels<'a>, place: usize) -> &'a Text
    requires { place < length (classes_in levels.now) }
    ensures { result.now ≡ (face_at (classes_in levels.now) place).name }
{
    let face = levels.classes[place].face;
    &face.name
}
