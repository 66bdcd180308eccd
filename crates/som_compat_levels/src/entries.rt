//! Finds an entry of a class by its name, by binary search over the numbers in the order of the names.

ghost use Rattle.som_compat_levels.specs.Owners.{FindsEntry, IsEntryAt};
ghost use Rattle.som_model.specs.Class.{entry_name, entry_of};
ghost use Rattle.std.specs.Prelude.{◌≡◌, ◌<◌, IsSome, length, map, slice_index_or, []};
ghost use Rattle.std.specs.Str.{bytes_eq};
ghost use Rattle.som_order.specs.Names.{name_at};

use som_model::{Entry, List, NoMemory, Text};
use som_order::name_of;
use std::alloc::Global;
use std::cmp::Ordering;

/// The numbers of entries in the order of their names. That they are in order is no clause: it only makes
/// finding fast.
pub fn sorted_entries(alloc: Global, entries: &[Entry]) -> Result<List<usize>, NoMemory> {
    let mut order = Vec::new(alloc);
    for number in 0..entries.len() {
        order.push(number)?;
    }
    order.sort_unstable_by(|one, other| by_numbers(entries, *one, *other));
    Ok(List::from_vec(order))
}

fn by_numbers(entries: &[Entry], one: usize, other: usize) -> Ordering {
    match entries.get(other) {
        Some(entry) => by_name(entries, one, name_of(entry).as_slice()),
        None => Ordering::Less,
    }
}

// How the name of the entry at a place stands to another name.
fn by_name(entries: &[Entry], number: usize, name: &[u8]) -> Ordering {
    match entries.get(number) {
        Some(entry) => name_of(entry).as_slice().cmp(name),
        None => Ordering::Less,
    }
}

/// The number of the entry of a name that a class has.
pub fn known_entry(entries: &[Entry], order: &[usize], name: &Text) -> usize
    requires { IsSome (entry_of entries.now name.now) }
    ensures { IsEntryAt entries.now name.now result }
{
    match find_entry(entries, order, name) {
        Some(number) => number,
        None => 0,
    }
}

// Where the numbers are in order, only a name that no entry has is sought among all.
fn find_entry(entries: &[Entry], order: &[usize], name: &Text) -> Option<usize>
    ensures { FindsEntry entries.now name.now result }
{
    let found = order.binary_search_by(|number| by_name(entries, *number, name.as_slice()));
    match found {
        Ok(at) => {
            let number = order[at];
            if number < entries.len() && has_name(entries, number, name) {
                Some(number)
            } else {
                find_among(entries, name)
            }
        }
        Err(_) => find_among(entries, name),
    }
}

fn find_among(entries: &[Entry], name: &Text) -> Option<usize>
    ensures { FindsEntry entries.now name.now result }
{
    for number in 0..entries.len() {
        if has_name(entries, number, name) {
            return Some(number);
        }
    }
    None
}

fn has_name(entries: &[Entry], number: usize, name: &Text) -> bool
    requires { number < length entries.now }
    ensures { result ≡ bytes_eq (name_at (map entry_name entries.now) number) name.now }
{
    name_of(&entries[number]).is(name.as_slice())
}
