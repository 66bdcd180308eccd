//! Compares a class of the old levels with that of the same name at its level in the new, rule by rule.

ghost use Rattle.som_compat.specs.Told.{told_by};
ghost use Rattle.som_compat_levels.specs.Pairs.{AreBegun, ArePaired};
ghost use Rattle.som_compat_levels.specs.Tables.{AreLevels, classes_in};
ghost use Rattle.som_compat_levels.specs.Told.{pair_breaks};
ghost use Rattle.som_level_laws.specs.Levels.{level_class_breaks};
ghost use Rattle.som_model.specs.Lists.{first};
ghost use Rattle.som_verify_classes.specs.Places.{class_of_place, face_at as face_of};
ghost use Rattle.std.specs.Prelude.{◌≡◌, ◌+◌, ◌<◌, ℕ, OnOk, length, slice_index_or};

use crate::ancestors::{keeps_ancestors, mark_ancestors};
use crate::finding::find_class;
use crate::metaclasses::keeps_metaclass;
use crate::methods::keeps_methods;
use crate::numbers::{number_at, set_number};
use crate::tables::Levels;
use crate::versions::{keeps_order, keeps_version};
use som_compat::Breach;
use som_model::ClassFace;

/// What the class at a place breaks first, where the classes before it are paired and keep their orders. The marks
/// are below the place's successor.
pub fn class_keeps<'a>(
    old: &Levels<'a>,
    new: &Levels,
    pairs: &mut [usize],
    marks: &mut [usize],
    below: &mut [bool],
    place: usize,
) -> Result<(), Breach<'a>>
    requires old { AreLevels old.now }
    requires new { AreLevels new.now }
    requires place { place < length (classes_in old.now) }
    requires pairs { ArePaired (classes_in old.now) (classes_in new.now) place pairs.old }
    requires orders { AreBegun (classes_in old.now) (classes_in new.now) place pairs.old }
    requires marks { length marks.old ≡ length (classes_in new.now) }
    requires fresh { (k : ℕ) → slice_index_or marks.old k 0 < place + 1 }
    requires below { length below.old ≡ length (classes_in new.now) }
    ensures tells { told_by result ≡ first (level_class_breaks (classes_in old.now) (classes_in new.now) (class_of_place (classes_in old.now) place)) }
    ensures pairs { OnOk result (ArePaired (classes_in old.now) (classes_in new.now) (place + 1) pairs.new) }
    ensures orders { OnOk result (AreBegun (classes_in old.now) (classes_in new.now) (place + 1) pairs.new) }
    ensures marks { OnOk result (length marks.new ≡ length marks.old) }
    ensures fresh { OnOk result ((k : ℕ) → slice_index_or marks.new k 0 < place + 2) }
    ensures below { OnOk result (length below.new ≡ length below.old) }
{
    let class = face_at(old, place);
    let home = old.classes[place].module;
    match find_class(new.classes, new.places, home, &class.name) {
        None => Err(Breach {
            rule: 1,
            class: &class.name,
            name: None,
            place: 0,
        }),
        Some(other) => {
            set_number(pairs, place, other);
            pair_keeps(old, new, pairs, marks, below, place)
        }
    }
}

// The rules from the second on, for a class and its pair.
fn pair_keeps<'a>(
    old: &Levels<'a>,
    new: &Levels,
    pairs: &[usize],
    marks: &mut [usize],
    below: &mut [bool],
    place: usize,
) -> Result<(), Breach<'a>>
    requires old { AreLevels old.now }
    requires new { AreLevels new.now }
    requires place { place < length (classes_in old.now) }
    requires pairs { ArePaired (classes_in old.now) (classes_in new.now) (place + 1) pairs.now }
    requires orders { AreBegun (classes_in old.now) (classes_in new.now) place pairs.now }
    requires marks { length marks.old ≡ length (classes_in new.now) }
    requires fresh { (k : ℕ) → slice_index_or marks.old k 0 < place + 1 }
    requires below { length below.old ≡ length (classes_in new.now) }
    ensures tells { told_by result ≡ first (pair_breaks (classes_in old.now) (classes_in new.now)
        (class_of_place (classes_in old.now) place) (class_of_place (classes_in new.now) (slice_index_or pairs.now place 0))) }
    ensures orders { OnOk result (AreBegun (classes_in old.now) (classes_in new.now) (place + 1) pairs.now) }
    ensures marks { OnOk result (length marks.new ≡ length marks.old) }
    ensures fresh { OnOk result ((k : ℕ) → slice_index_or marks.new k 0 < place + 2) }
    ensures below { OnOk result (length below.new ≡ length below.old) }
{
    let other = number_at(pairs, place);
    let class = face_at(old, place);
    let face = face_at(new, other);
    keeps_version(class, face)?;
    mark_ancestors(new, other, marks, place + 1);
    keeps_ancestors(old, new, pairs, marks, place + 1, place)?;
    keeps_order(class, face)?;
    keeps_methods(old, new, pairs, place)?;
    keeps_metaclass(old, new, pairs, below, place)
}

// The face of the class at a place.
fn face_at<'a>(levels: &Levels<'a>, place: usize) -> &'a ClassFace
    requires { place < length (classes_in levels.now) }
    ensures { result.now ≡ face_of (classes_in levels.now) place }
{
    levels.classes[place].face
}
