//! Marks of ancestors, by which the only ancestor that introduces a name is found in a few steps.

ghost use Rattle.som_sema_names.specs.Searching as spec;
ghost use Rattle.som_sema_names.specs.Searching.{AreRows, IsOnly, IsRow, IsSearch, is_other};
ghost use Rattle.som_model.specs.Class.{Class};
ghost use Rattle.som_model.specs.Lists.{Mem, find, some};
ghost use Rattle.std.specs.Prelude.{◌≡◌, ◌<◌, ◌≤◌, ◌+◌, ℕ, [], true, false, List as Seq, length, slice_index_or, slice_set, IfOk, IfSome};

use crate::introducers::Introducers;
use crate::ranking::places_at;
use som_model::{List, NoMemory};
use som_order::find_name;
use som_verify_classes::item;
use std::alloc::Global;

/// The classes that introduce each name, and for each class a row in which the places of its ancestors are marked.
#[derive(Clone, Copy)]
pub struct MethodSearch<'s, 'a> {
    pub introducers: &'s Introducers<'a>,
    pub rows: &'s [List<bool>],
}

/// For each list a row that marks the places on it, each of which is below a number.
pub fn marked_rows(
    alloc: Global,
    lists: &[List<usize>],
    number: usize,
) -> Result<Vec<List<bool>>, NoMemory>
    requires { (i p : ℕ) → Mem p (slice_index_or lists.now i []) → p < number }
    ensures { IfOk result (λ rows. AreRows lists.now rows.items) }
{
    let mut rows = Vec::new(alloc);
    for place in 0..lists.len() {
        let row = marked_row(alloc, item(lists, place), number)?;
        rows.push(row)?;
    }
    Ok(rows)
}

fn marked_row(alloc: Global, list: &[usize], number: usize) -> Result<List<bool>, NoMemory>
    requires { (p : ℕ) → Mem p list.now → p < number }
    ensures { IfOk result (IsRow list.now) }
{
    let mut marks = Vec::new(alloc);
    marks.resize(past(list, number), false)?;
    mark_all(&mut marks, list);
    Ok(List::from_vec(marks))
}

// A number that is past each of these places, so that a row is no longer than it has to be.
fn past(list: &[usize], number: usize) -> usize
    requires { (p : ℕ) → Mem p list.now → p < number }
    ensures { (p : ℕ) → Mem p list.now → p < result }
{
    let mut past = 0;
    for place in list {
        past = greater(past, next(*place, number));
    }
    past
}

fn next(place: usize, number: usize) -> usize
    requires { place < number }
    ensures { result ≡ place + 1 }
{
    place + 1
}

fn greater(one: usize, other: usize) -> usize
    ensures one { one ≤ result }
    ensures other { other ≤ result }
{
    if one < other { other } else { one }
}

fn mark_all(marks: &mut [bool], list: &[usize])
    requires low { (p : ℕ) → Mem p list.now → p < length marks.old }
    requires none { (p : ℕ) → spec.is_marked marks.old p ≡ false }
    ensures { IsRow list.now marks.new }
{
    for place in list {
        mark(marks, *place);
    }
}

fn mark(marks: &mut [bool], place: usize)
    requires { place < length marks.old }
    ensures { marks.new ≡ slice_set marks.old place true }
{
    marks[place] = true;
}

/// The only ancestor of the class at a place that introduces a name, and None where none does, or more than one.
pub fn only_introducer(search: &MethodSearch, class: usize, name: &[u8]) -> Option<usize>
    requires { (cs : Seq Class) × ((lists : Seq (Seq ℕ)) × (IsSearch cs lists search.now × (class < length lists))) }
    ensures { (cs : Seq Class) (lists : Seq (Seq ℕ)) → IsSearch cs lists search.now → class < length lists
        → IfSome result (IsOnly cs (slice_index_or lists class []) name.now) }
{
    match find_name(&search.introducers.names, name) {
        None => None,
        Some(index) => {
            let places = places_at(search.introducers.places.as_slice(), index);
            only_marked(row_at(search.rows, class), places)
        }
    }
}

fn row_at(rows: &[List<bool>], place: usize) -> &[bool]
    requires { place < length rows.now }
    ensures { result.now ≡ slice_index_or rows.now place [] }
{
    rows[place].as_slice()
}

// The only one of these places that is marked.
fn only_marked(row: &[bool], places: &[usize]) -> Option<usize>
    ensures marked { IfSome result (λ p. spec.is_marked row.now p ≡ true) }
    ensures only { IfSome result (λ p. some (is_other row.now p) places.now ≡ false) }
{
    match first_marked(row, places) {
        None => None,
        Some(place) => alone(row, places, place),
    }
}

fn alone(row: &[bool], places: &[usize], place: usize) -> Option<usize>
    ensures is { IfSome result (λ p. p ≡ place) }
    ensures only { IfSome result (λ p. some (is_other row.now p) places.now ≡ false) }
{
    if has_other(row, places, place) {
        None
    } else {
        Some(place)
    }
}

fn first_marked(row: &[bool], places: &[usize]) -> Option<usize>
    ensures { result ≡ find (spec.is_marked row.now) places.now }
{
    for place in places {
        if is_marked(row, *place) {
            return Some(*place);
        }
    }
    None
}

fn has_other(row: &[bool], places: &[usize], place: usize) -> bool
    ensures { result ≡ some (is_other row.now place) places.now }
{
    for other in places {
        if is_marked(row, *other) && *other != place {
            return true;
        }
    }
    false
}

fn is_marked(row: &[bool], place: usize) -> bool
    ensures { result ≡ spec.is_marked row.now place }
{
    match row.get(place) {
        None => false,
        Some(mark) => *mark,
    }
}
