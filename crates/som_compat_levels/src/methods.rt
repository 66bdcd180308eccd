//! Checks that each entry of a class keeps its signature and its owner (K5).

ghost use Rattle.som_compat.specs.Told.{told_by};
ghost use Rattle.som_compat_levels.specs.Owners.{IsSlot};
ghost use Rattle.som_compat_levels.specs.Pairs.{AreBegun, ArePaired};
ghost use Rattle.som_compat_levels.specs.Tables.{AreLevels, classes_in};
ghost use Rattle.som_level_laws.specs.Levels.{keeps_method as keeps, level_k5};
ghost use Rattle.som_model.specs.Class.{entry_name, introduced_sig};
ghost use Rattle.som_model.specs.Lists.{first};
ghost use Rattle.som_model.specs.Same.{same_option, same_sig};
ghost use Rattle.som_model.specs.declared.class.Entry.{Entry as Listed};
ghost use Rattle.som_model.specs.declared.limits.TheConstants.{MAX_ENTRIES};
ghost use Rattle.som_verify_classes.specs.Places.{class_of_place, face_at};
ghost use Rattle.std.specs.Prelude.{◌≡◌, ◌+◌, ◌<◌, ◌≤◌, Some, length, option_copied, slice_get, slice_index_or};

use crate::ancestors::class_name;
use crate::numbers::number_at;
use crate::owners::{Slot, entries_at, slot_at};
use crate::tables::Levels;
use som_compat::Breach;
use som_model::{Entry, Sig};
use som_order::name_of;

/// K5: each entry has the same signature through its owner in the old and in the new, and the new owner of the
/// entry is that of its old owner.
pub fn keeps_methods<'a>(
    old: &Levels<'a>,
    new: &Levels,
    pairs: &[usize],
    place: usize,
) -> Result<(), Breach<'a>>
    requires old { AreLevels old.now }
    requires new { AreLevels new.now }
    requires place { place < length (classes_in old.now) }
    requires few { length (face_at (classes_in old.now) place).entries ≤ MAX_ENTRIES }
    requires pairs { ArePaired (classes_in old.now) (classes_in new.now) (place + 1) pairs.now }
    requires orders { AreBegun (classes_in old.now) (classes_in new.now) (place + 1) pairs.now }
    ensures { told_by result ≡ first (level_k5 (classes_in old.now) (classes_in new.now) (class_of_place (classes_in old.now) place)) }
{
    let entries = entries_at(old.classes, place);
    for number in 0..entries.len() {
        if !keeps_method(old, new, pairs, place, number) {
            return Err(Breach {
                rule: 5,
                class: class_name(old, place),
                name: Some(name_of(&entries[number])),
                place: number as u32,
            });
        }
    }
    Ok(())
}

// Whether one entry keeps its signature and its owner.
fn keeps_method(old: &Levels, new: &Levels, pairs: &[usize], place: usize, number: usize) -> bool
    requires old { AreLevels old.now }
    requires new { AreLevels new.now }
    requires place { place < length (classes_in old.now) }
    requires number { number < length (face_at (classes_in old.now) place).entries }
    requires pairs { ArePaired (classes_in old.now) (classes_in new.now) (place + 1) pairs.now }
    requires orders { AreBegun (classes_in old.now) (classes_in new.now) (place + 1) pairs.now }
    ensures { (e : Listed) → slice_get (face_at (classes_in old.now) place).entries number ≡ Some e →
        result ≡ keeps (classes_in old.now) (classes_in new.now) (class_of_place (classes_in old.now) place) (entry_name e) }
{
    let before = slot_at(&old.tables.owners, place, number);
    let after = slot_at(&new.tables.owners, number_at(pairs, place), number);
    let kept = slot_at(
        &new.tables.owners,
        number_at(pairs, before.class),
        before.entry,
    );
    let same = are_one_signature(signature_at(old, before), signature_at(new, after));
    same && after.class == kept.class
}

// The signature that an entry introduces.
fn signature_at<'a>(levels: &Levels<'a>, slot: Slot) -> Option<&'a Sig>
    requires { IsSlot (classes_in levels.now) slot }
    ensures { option_copied result ≡ introduced_sig (slice_get (face_at (classes_in levels.now) slot.class).entries slot.entry) }
{
    own_sig(&entries_at(levels.classes, slot.class)[slot.entry])
}

fn own_sig(entry: &Entry) -> Option<&Sig>
    ensures { option_copied result ≡ introduced_sig (Some entry.now) }
{
    match entry {
        Entry::Introduced { sig, .. } => Some(sig),
        Entry::Moved { .. } => None,
    }
}

fn are_one_signature(one: Option<&Sig>, other: Option<&Sig>) -> bool
    ensures { result ≡ same_option same_sig (option_copied one.entry) (option_copied other.entry) }
{
    match (one, other) {
        (None, None) => true,
        (Some(x), Some(y)) => x.is(y),
        _ => false,
    }
}
