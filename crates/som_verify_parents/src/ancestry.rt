//! Computes the ancestors of all classes by places, each list from the lists of the class's parents.

ghost use Rattle.som_model.specs.Lists.{Mem, joined, some};
ghost use Rattle.som_model_laws.specs.Once.{add_new, adds};
ghost use Rattle.som_model_laws.specs.Rows.{AreAncestors, AreLow, AreMarks};
ghost use Rattle.std.specs.Prelude.{◌≡◌, ◌==◌, ℕ, ◌+◌, ◌<◌, ◌≤◌, ◌∷◌, ◌++◌, [], map, length, slice_index_or, IfOk, IsTrue, OnOk};

use som_model::{List, NoMemory};
use som_verify_classes::{has_place, item};
use std::alloc::Global;

/// The ancestors of each class, by places. Each list is made once, from those of the class's parents.
pub fn ancestors(alloc: Global, rows: &[List<usize>]) -> Result<Vec<List<usize>>, NoMemory>
    requires { AreLow rows.now }
    ensures { IfOk result (λ all. AreAncestors rows.now (length rows.now) all.items) }
{
    let mut all = Vec::new(alloc);
    for place in 0..rows.len() {
        let list = ancestors_of(alloc, rows, &all, item(rows, place), place)?;
        all.push(list)?;
    }
    Ok(all)
}

// The class, and then the ancestors of its parents, each once.
fn ancestors_of(
    alloc: Global,
    rows: &[List<usize>],
    known: &[List<usize>],
    row: &[usize],
    place: usize,
) -> Result<List<usize>, NoMemory>
    requires rows { AreLow rows.now }
    requires known { AreAncestors rows.now (length known.now) known.now }
    requires within { length known.now ≤ length rows.now }
    requires place { length known.now ≡ place }
    requires row { (p : ℕ) → Mem p row.now → p < length known.now }
    requires low { (p a : ℕ) → Mem a (slice_index_or known.now p []) → a ≤ p }
    requires once { (p : ℕ) → adds ◌==◌ [] (slice_index_or known.now p []) ≡ slice_index_or known.now p [] }
    ensures { IfOk result (λ list. list ≡ adds ◌==◌ [] (place ∷ joined (map (λ p. slice_index_or known.now p []) row.now))) }
{
    match row.split_first() {
        Some((first, others)) => ancestors_under(alloc, rows, known, *first, others, place),
        None => List::from_slice(alloc, &[place]),
    }
}

// The ancestors of a class with a first parent and others: the first one's are noted as they are.
fn ancestors_under(
    alloc: Global,
    rows: &[List<usize>],
    known: &[List<usize>],
    first: usize,
    others: &[usize],
    place: usize,
) -> Result<List<usize>, NoMemory>
    requires rows { AreLow rows.now }
    requires known { AreAncestors rows.now (length known.now) known.now }
    requires within { length known.now ≤ length rows.now }
    requires place { length known.now ≡ place }
    requires first { first < length known.now }
    requires others { (p : ℕ) → Mem p others.now → p < length known.now }
    requires low { (p a : ℕ) → Mem a (slice_index_or known.now p []) → a ≤ p }
    requires once { (p : ℕ) → adds ◌==◌ [] (slice_index_or known.now p []) ≡ slice_index_or known.now p [] }
    ensures { IfOk result (λ list. list ≡ adds ◌==◌ [] (place ∷ (slice_index_or known.now first [] ++ joined (map (λ p. slice_index_or known.now p []) others.now)))) }
{
    let mut list = with_above(alloc, place, item(known, first), others.len())?;
    note_others(alloc, &mut list, rows, known, others)?;
    Ok(list)
}

// A class, and those above it, with room for so many more.
fn with_above(
    alloc: Global,
    place: usize,
    above: &[usize],
    more: usize,
) -> Result<List<usize>, NoMemory>
    ensures { IfOk result (λ list. list ≡ place ∷ above.now) }
{
    let room = above.len().saturating_add(1).saturating_add(more);
    let mut list = List::with_room(alloc, room)?;
    list.push(place)?;
    list.extend_from_slice(above)?;
    Ok(list)
}

// The ancestors of further parents, as far as they aren't on the list. Where all that stands above these is, they are noted alone.
fn note_others(
    alloc: Global,
    list: &mut List<usize>,
    rows: &[List<usize>],
    known: &[List<usize>],
    others: &[usize],
) -> Result<(), NoMemory>
    requires rows { AreLow rows.now }
    requires known { AreAncestors rows.now (length known.now) known.now }
    requires within { length known.now ≤ length rows.now }
    requires closed { (p a : ℕ) → p < length known.now → Mem p list.old → Mem a (slice_index_or known.now p []) → Mem a list.old }
    requires list { (a : ℕ) → Mem a list.old → a ≤ length known.now }
    requires others { (p : ℕ) → Mem p others.now → p < length known.now }
    requires low { (p a : ℕ) → Mem a (slice_index_or known.now p []) → a ≤ p }
    ensures { OnOk result (list.new ≡ adds ◌==◌ list.old (joined (map (λ p. slice_index_or known.now p []) others.now))) }
{
    if others.is_empty() {
        return Ok(());
    }
    if stand_below(list.as_slice(), rows, others) {
        return note_each(list, others);
    }
    let mut marks = Vec::new(alloc);
    marks.resize(known.len() + 1, false)?;
    mark_all(&mut marks, list.as_slice());
    note_parents(list, &mut marks, known, others)
}

// Whether the parents of each of these are on a list.
fn stand_below(list: &[usize], rows: &[List<usize>], others: &[usize]) -> bool
    requires { (p : ℕ) → Mem p others.now → p < length rows.now }
    ensures { IsTrue result → (p q : ℕ) → Mem p others.now → Mem q (slice_index_or rows.now p []) → Mem q list.now }
{
    for other in others {
        if !has_all(list, item(rows, *other)) {
            return false;
        }
    }
    true
}

fn has_all(list: &[usize], row: &[usize]) -> bool
    ensures { IsTrue result → (q : ℕ) → Mem q row.now → Mem q list.now }
{
    for class in row {
        if !has_place(list, *class) {
            return false;
        }
    }
    true
}

// Adds those that aren't on the list.
fn note_each(list: &mut List<usize>, others: &[usize]) -> Result<(), NoMemory>
    ensures { OnOk result (list.new ≡ adds ◌==◌ list.old others.now) }
{
    for other in others {
        note_one(list, *other)?;
    }
    Ok(())
}

fn note_one(list: &mut List<usize>, class: usize) -> Result<(), NoMemory>
    ensures { OnOk result (list.new ≡ add_new ◌==◌ list.old class) }
{
    if !has_place(list.as_slice(), class) {
        list.push(class)?;
    }
    Ok(())
}

// Marks all of a list, where nothing is marked.
fn mark_all(marks: &mut [bool], list: &[usize])
    requires list { (a : ℕ) → Mem a list.now → a < length marks.old }
    requires clear { AreMarks marks.old [] }
    ensures marks { AreMarks marks.new list.now }
    ensures long { length marks.new ≡ length marks.old }
{
    for class in list {
        marks[*class] = true;
    }
}

fn note_parents(
    list: &mut List<usize>,
    marks: &mut [bool],
    known: &[List<usize>],
    row: &[usize],
) -> Result<(), NoMemory>
    requires row { (p : ℕ) → Mem p row.now → p < length known.now }
    requires low { (p a : ℕ) → Mem a (slice_index_or known.now p []) → a ≤ p }
    requires long { length marks.old ≡ length known.now + 1 }
    requires marks { AreMarks marks.old list.old }
    ensures { OnOk result (list.new ≡ adds ◌==◌ list.old (joined (map (λ p. slice_index_or known.now p []) row.now))) }
{
    for parent in row {
        note_all(list, marks, item(known, *parent))?;
    }
    Ok(())
}

fn note_all(list: &mut List<usize>, marks: &mut [bool], others: &[usize]) -> Result<(), NoMemory>
    requires others { (a : ℕ) → Mem a others.now → a < length marks.old }
    requires marks { AreMarks marks.old list.old }
    ensures list { OnOk result (list.new ≡ adds ◌==◌ list.old others.now) }
    ensures marks { OnOk result (AreMarks marks.new list.new) }
{
    for other in others {
        note(list, marks, *other)?;
    }
    Ok(())
}

fn note(list: &mut List<usize>, marks: &mut [bool], class: usize) -> Result<(), NoMemory>
    requires class { class < length marks.old }
    requires marks { AreMarks marks.old list.old }
    ensures list { OnOk result (list.new ≡ add_new ◌==◌ list.old class) }
    ensures marks { OnOk result (AreMarks marks.new list.new) }
{
    if !marks[class] {
        list.push(class)?;
        marks[class] = true;
    }
    Ok(())
}
