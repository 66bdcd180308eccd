//! The entries of a class by their names.

ghost use Rattle.som_model.specs.Class.{entry_of};
ghost use Rattle.som_sema_names.specs.Noted.{IsKnown, all_at, counted};
ghost use Rattle.std.specs.Prelude.{◌≡◌, slice_get, option_copied, IfOk};

use crate::places::{Noted, Places, first_place, note, place_table};
use som_model::{Entry, NoMemory};
use som_order::name_of;
use std::alloc::Global;

/// The first place of each entry's name.
pub fn entry_places<'a>(alloc: Global, entries: &'a [Entry]) -> Result<Places<'a>, NoMemory>
    ensures { IfOk result (IsKnown (counted 0 entries.now)) }
{
    let numbered = numbered(alloc, entries)?;
    place_table(alloc, &numbered)
}

// The names of entries with their places.
fn numbered<'a>(alloc: Global, entries: &'a [Entry]) -> Result<Vec<Noted<'a>>, NoMemory>
    ensures { IfOk result (λ all. all_at all.items ≡ counted 0 entries.now) }
{
    let mut all = Vec::new(alloc);
    for place in 0..entries.len() {
        note(&mut all, name_of(&entries[place]).as_slice(), place)?;
    }
    Ok(all)
}

/// The entry of a name, by the places of the entries' names.
pub fn entry_named<'a>(entries: &'a [Entry], places: &Places, name: &[u8]) -> Option<&'a Entry>
    requires { IsKnown (counted 0 entries.now) places.now }
    ensures { option_copied result ≡ entry_of entries.now name.now }
{
    match first_place(places, name) {
        None => None,
        Some(place) => entry_in(entries, place),
    }
}

fn entry_in(entries: &[Entry], place: usize) -> Option<&Entry>
    ensures { option_copied result ≡ slice_get entries.now place }
{
    entries.get(place)
}
