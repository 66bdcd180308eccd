//! Where a class stands in the hierarchy: parents, ancestors, rank, and marks for quick tests of descent.

ghost use Rattle.som_model.specs.Lists.{Mem, joined, some};
ghost use Rattle.som_class_ids.specs.Positions.{AreLow, AreMarked, IsNext, lists};
ghost use Rattle.som_class_ids.specs.declared.position.Kind.TheVariants as kinds;
ghost use Rattle.som_model_laws.specs.Once.{add_new, adds};
ghost use Rattle.som_model_laws.specs.Rows.{AreMarks};
ghost use Rattle.std.specs.Prelude.{◌≡◌, ◌≢◌, ◌==◌, ◌+◌, ◌<◌, ◌≤◌, ℕ, [], ◌∷◌, IfOk, OnOk, Some, false, length, map, slice_get, slice_index_or};

use som_model::{List, NoMemory};
use som_tables::ClassNo;
use std::alloc::Global;

/// How a class comes about: it is declared, or is made of the classes that are its parents, derived from several, or that
/// of the proxies of one.
#[derive(Clone, Copy, PartialEq, Eq)]
pub enum Kind {
    Declared,
    Derived,
    Proxy,
}

/// Where a class stands: its parents, itself and its ancestors, and its rank; of a declared class also which of the classes of no higher number its
/// ancestors are. Of made classes, of which there may be many, this isn't kept.
#[derive(Drop)]
pub(crate) struct Position {
    pub(crate) kind: Kind,
    pub(crate) parents: List<ClassNo>,
    pub(crate) ancestors: List<ClassNo>,
    pub(crate) marks: List<bool>,
    pub(crate) rank: u32,
}

/// The position of the declared class that comes next, made of those of its parents in the time that their lists of ancestors and its marks take.
pub(crate) fn next_declared(
    alloc: Global,
    known: &[Position],
    parents: List<ClassNo>,
    rank: u32,
) -> Result<Position, NoMemory>
    requires few { length known.now < 4294967295 }
    requires parents { (p : ℕ) → Mem p parents → p < length known.now }
    requires low { AreLow known.now }
    ensures { IfOk result (λ position. IsNext known.now kinds.Declared parents rank position) }
{
    let mut marks = Vec::new(alloc);
    marks.resize(known.len() + 1, false)?;
    let mut ancestors = List::new(alloc);
    note_next(&mut ancestors, &mut marks, known, parents.as_slice())?;
    Ok(Position {
        kind: Kind::Declared,
        parents,
        ancestors,
        marks: List::from_vec(marks),
        rank,
    })
}

/// The position of the class that comes next and is made of others, in the time that their lists of ancestors take. The marks are lent for that time,
/// and none is left, whether the class gets its position or memory is short.
pub(crate) fn next_made(
    alloc: Global,
    known: &[Position],
    marks: &mut Vec<bool>,
    kind: Kind,
    parents: List<ClassNo>,
    rank: u32,
) -> Result<Position, NoMemory>
    requires few { length known.now < 4294967295 }
    requires made { kind ≢ kinds.Declared }
    requires parents { (p : ℕ) → Mem p parents → p < length known.now }
    requires low { AreLow known.now }
    requires unmarked { AreMarks marks.old.items [] }
    ensures next { IfOk result (λ position. IsNext known.now kind parents rank position) }
    ensures unmarked { AreMarks marks.new.items [] }
{
    marks.resize(known.len() + 1, false)?;
    let mut ancestors = List::new(alloc);
    let noted = note_next(&mut ancestors, marks, known, parents.as_slice());
    unmark(marks, ancestors.as_slice());
    noted?;
    Ok(Position {
        kind,
        parents,
        ancestors,
        marks: List::new(alloc),
        rank,
    })
}

/// Takes the marks of these classes away.
fn unmark(marks: &mut [bool], classes: &[ClassNo])
    requires { AreMarks marks.old classes.now }
    ensures { AreMarks marks.new [] }
{
    for class in classes {
        let place = class.number() as usize;
        if place < marks.len() {
            marks[place] = false;
        }
    }
}

/// Notes the class that comes next, and then the ancestors of its parents.
fn note_next(
    list: &mut List<ClassNo>,
    marks: &mut [bool],
    known: &[Position],
    parents: &[ClassNo],
) -> Result<(), NoMemory>
    requires few { length known.now < 4294967295 }
    requires parents { (p : ℕ) → Mem p parents.now → p < length known.now }
    requires low { AreLow known.now }
    requires long { length marks.old ≡ length known.now + 1 }
    requires marks { AreMarks marks.old list.old }
    ensures list { OnOk result (list.new ≡ adds ◌==◌ list.old (length known.now ∷ joined (map (λ p. slice_index_or (lists known.now) p []) parents.now))) }
    ensures marks { AreMarks marks.new list.new }
{
    note(list, marks, ClassNo::new(known.len() as u32))?;
    note_parents(list, marks, known, parents)
}

fn note_parents(
    list: &mut List<ClassNo>,
    marks: &mut [bool],
    known: &[Position],
    parents: &[ClassNo],
) -> Result<(), NoMemory>
    requires parents { (p : ℕ) → Mem p parents.now → p < length known.now }
    requires low { AreLow known.now }
    requires long { length marks.old ≡ length known.now + 1 }
    requires marks { AreMarks marks.old list.old }
    ensures list { OnOk result (list.new ≡ adds ◌==◌ list.old (joined (map (λ p. slice_index_or (lists known.now) p []) parents.now))) }
    ensures marks { AreMarks marks.new list.new }
{
    for parent in parents {
        note_all(list, marks, ancestors_of(known, *parent))?;
    }
    Ok(())
}

fn note_all(
    list: &mut List<ClassNo>,
    marks: &mut [bool],
    others: &[ClassNo],
) -> Result<(), NoMemory>
    requires others { (a : ℕ) → Mem a others.now → a < length marks.old }
    requires marks { AreMarks marks.old list.old }
    ensures list { OnOk result (list.new ≡ adds ◌==◌ list.old others.now) }
    ensures marks { AreMarks marks.new list.new }
{
    for other in others {
        note(list, marks, *other)?;
    }
    Ok(())
}

fn note(list: &mut List<ClassNo>, marks: &mut [bool], class: ClassNo) -> Result<(), NoMemory>
    requires class { class < length marks.old }
    requires marks { AreMarks marks.old list.old }
    ensures list { OnOk result (list.new ≡ add_new ◌==◌ list.old class) }
    ensures marks { AreMarks marks.new list.new }
{
    let place = class.number() as usize;
    if !marks[place] {
        list.push(class)?;
        marks[place] = true;
    }
    Ok(())
}

/// The position of a class.
pub(crate) fn position_of(known: &[Position], class: ClassNo) -> &Position
    requires { class < length known.now }
    ensures { slice_get known.now class ≡ Some result.now }
{
    &known[class.number() as usize]
}

fn ancestors_of(known: &[Position], class: ClassNo) -> &[ClassNo]
    requires { class < length known.now }
    ensures { result.now ≡ slice_index_or (lists known.now) class [] }
{
    position_of(known, class).ancestors.as_slice()
}

fn mark_at(marks: &[bool], place: usize) -> bool
    ensures { result ≡ slice_index_or marks.now place false }
{
    if place < marks.len() {
        marks[place]
    } else {
        false
    }
}

fn is_listed(list: &[ClassNo], class: ClassNo) -> bool
    ensures { result ≡ some (λ x. class == x) list.now }
{
    for other in list {
        if class == *other {
            return true;
        }
    }
    false
}

/// Whether a class is among the ancestors of another: of a declared class by the mark, of a made one by its list.
pub(crate) fn is_marked(known: &[Position], class: ClassNo, ancestor: ClassNo) -> bool
    requires class { class < length known.now }
    requires marked { AreMarked known.now }
    ensures { result ≡ some (λ x. ancestor == x) (slice_index_or (lists known.now) class []) }
{
    let position = position_of(known, class);
    match position.kind {
        Kind::Declared => mark_at(position.marks.as_slice(), ancestor.number() as usize),
        Kind::Derived => is_listed(position.ancestors.as_slice(), ancestor),
        Kind::Proxy => is_listed(position.ancestors.as_slice(), ancestor),
    }
}
