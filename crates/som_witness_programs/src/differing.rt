//! The first place at which two lists of types differ, and whether a value of one type fits another.

ghost use Rattle.som_model.specs.Classes.{class_at, is_a};
ghost use Rattle.som_model.specs.Rules.{is_void};
ghost use Rattle.som_model.specs.declared.key.ValueType.TheVariants as types;
ghost use Rattle.som_model.specs.declared.limits.TheConstants.{MAX_PARAMETERS};
ghost use Rattle.som_verify_forms.specs.Knowing.{IsKnowledge, all_of};
ghost use Rattle.som_verify_classes.specs.Places.{key_at};
ghost use Rattle.som_witness.specs.Showings.{first_change, fits_among};
ghost use Rattle.som_witness_programs.specs.Lent.{change_shown};
ghost use Rattle.std.specs.Prelude.{◌≡◌, ◌<◌, ◌≤◌, ◌&&◌, is_some, length};

use som_model::{ClassKey, ValueType};
use som_verify_classes::descends_by;
use som_verify_forms::{Knowledge, place_of};

/// A place at which two lists have different types.
#[derive(Clone, Copy)]
pub struct Change<'a, 'b> {
    pub place: u16,
    pub old_type: &'a ValueType,
    pub new_type: &'b ValueType,
}

/// The first place at which the types differ, up to the end of the shorter list.
pub fn first_change<'a, 'b>(
    before: &'a [ValueType],
    after: &'b [ValueType],
) -> Option<Change<'a, 'b>>
    requires few { length before.now ≤ MAX_PARAMETERS }
    ensures { change_shown result ≡ first_change 0 before.now after.now }
{
    let mut olds = before;
    let mut news = after;
    let mut place = 0u16;
    while let [old_type, later_olds @ ..] = olds {
        match news {
            [] => return None,
            [new_type, later_news @ ..] => {
                if !old_type.is(new_type) {
                    return Some(Change {
                        place,
                        old_type,
                        new_type,
                    });
                }
                olds = later_olds;
                news = later_news;
                place += 1;
            }
        }
    }
    None
}

/// Whether the type is that of no value.
pub fn is_void(kind: &ValueType) -> bool
    ensures { result ≡ is_void kind.now }
{
    match kind {
        ValueType::Void => true,
        _ => false,
    }
}

/// Whether a value of the second type fits the first. A class that isn't known fits nothing, and nothing fits it.
pub fn fits_among(known: &Knowledge, wanted: &ValueType, given: &ValueType) -> bool
    requires { IsKnowledge known.now }
    ensures { result ≡ fits_among (all_of known.now) wanted.now given.now }
{
    match (wanted, given) {
        (ValueType::Class(ancestor), ValueType::Class(class)) => {
            descends_among(known, class, ancestor)
        }
        _ => given.is(wanted),
    }
}

// Whether both classes are known, and the one descends from the other.
fn descends_among(known: &Knowledge, class: &ClassKey, ancestor: &ClassKey) -> bool
    requires { IsKnowledge known.now }
    ensures { result ≡ fits_among (all_of known.now) (types.Class ancestor.now) (types.Class class.now) }
{
    match place_of(known, ancestor) {
        Some(place) => descends_to(known, class, place),
        None => false,
    }
}

// Whether a class is known, and descends from the one at a place.
fn descends_to(known: &Knowledge, class: &ClassKey, ancestor: usize) -> bool
    requires known { IsKnowledge known.now }
    requires ancestor { ancestor < length (all_of known.now) }
    ensures { result ≡ (is_some (class_at (all_of known.now) class.now) && is_a (all_of known.now) class.now (key_at (all_of known.now) ancestor)) }
{
    match place_of(known, class) {
        Some(place) => descends_by(known.lists, place, ancestor),
        None => false,
    }
}
