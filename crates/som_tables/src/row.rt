//! What a row is made of: the parents, the introduced cells, and those that replace others.

ghost use Rattle.std.specs.Prelude.{◌≡◌, ◌==◌, ◌/◌, [], false, IfOk, None, ℕ, length};
ghost use Rattle.som_tables.specs.Layout.{on_page};
ghost use Rattle.som_tables.specs.Rows.{class_with, introduced_count, replaced_at};

use crate::starts::PAGE;
use crate::{ClassNo, Kind, Token};
use std::alloc::{AllocError, Global};
use std::marker::Model;

/// What the row of a class is made of.
#[derive(Drop)]
struct Parts<K: Kind> {
    parents: Vec<ClassNo>,
    introduced: Vec<K::Cell>,
    replaced: Vec<(Token<K>, K::Cell)>,
}

/// What the row of a class is made of, in the size of a pointer. The blocks only lay it out.
#[derive(Drop)]
pub(crate) struct Row<K: Kind> {
    parts: Box<Parts<K>>,
}

impl<K: Kind> Model for Row<K> {
    ghost use Rattle.som_tables.specs.Rows.{Added};

    ghost Value = { Added K.Cell };

    ghost view = { λ r. record { parents = r.parts.value.parents.items; introduced = r.parts.value.introduced.items; replaced = r.parts.value.replaced.items } };
}

impl<K: Kind> Row<K> {
    pub(crate) fn new(
        alloc: Global,
        parents: &[ClassNo],
        introduced: &[K::Cell],
        replaced: &[(Token<K>, K::Cell)],
    ) -> Result<Row<K>, AllocError>
        ensures { IfOk result (λ row. row ≡ class_with parents.now introduced.now replaced.now) }
    {
        let parts = Parts {
            parents: Vec::from_slice(alloc, parents)?,
            introduced: Vec::from_slice(alloc, introduced)?,
            replaced: Vec::from_slice(alloc, replaced)?,
        };
        Ok(Row {
            parts: Box::new(alloc, parts)?,
        })
    }

    /// What the row is made of as far as a page tells: no cells of its own, and those alone that are replaced there.
    pub(crate) fn on_page(&self, alloc: Global, number: usize) -> Result<Row<K>, AllocError>
        ensures { IfOk result (λ row. row ≡ class_with self.now.parents [] (on_page number self.now.replaced)) }
    {
        let replaced = replaced_on(alloc, self.replaced(), number)?;
        Row::new(alloc, self.parents(), &[], replaced.as_slice())
    }

    pub(crate) fn parents(&self) -> &[ClassNo]
        ensures { result.now ≡ self.now.parents }
    {
        self.parts.parents.as_slice()
    }

    pub(crate) fn introduced(&self) -> &[K::Cell]
        ensures { result.now ≡ self.now.introduced }
    {
        self.parts.introduced.as_slice()
    }

    pub(crate) fn replaced(&self) -> &[(Token<K>, K::Cell)]
        ensures { result.now ≡ self.now.replaced }
    {
        self.parts.replaced.as_slice()
    }
}

/// How many cells a class introduced.
pub(crate) fn introduced_by<K: Kind>(rows: &[Option<Row<K>>], class: ClassNo) -> usize
    ensures { result ≡ introduced_count rows.now class }
{
    match rows.get(class.number() as usize) {
        Some(Some(row)) => row.introduced().len(),
        _ => 0,
    }
}

/// Whether the cell of some token of the class is replaced. It may say so where none is.
pub(crate) fn replaces_any<K: Kind>(replaced: &[(Token<K>, K::Cell)], class: ClassNo) -> bool
    ensures { result ≡ false → (p : ℕ) → replaced_at replaced.now (class, p) ≡ None }
{
    for pair in replaced {
        if pair.0.class() == class {
            return true;
        }
    }
    false
}

/// Whether a token is of a class of the page.
fn is_on<K: Kind>(token: &Token<K>, number: usize) -> bool
    ensures { result ≡ (token.now.0 / 64 == number) }
{
    token.class().number() as usize / PAGE == number
}

/// Whether the cell of some token of a class of the page is replaced. It may say so where none is.
pub(crate) fn replaces_on<K: Kind>(replaced: &[(Token<K>, K::Cell)], number: usize) -> bool
    ensures { result ≡ false → (a p : ℕ) → a / 64 ≡ number → replaced_at replaced.now (a, p) ≡ None }
{
    for pair in replaced {
        if is_on(&pair.0, number) {
            return true;
        }
    }
    false
}

/// A token and the cell that replaces its own.
fn copy_of<K: Kind>(pair: &(Token<K>, K::Cell)) -> (Token<K>, K::Cell)
    ensures { result ≡ pair.now }
{
    (Token::new(pair.0.class(), pair.0.place()), pair.1)
}

/// The replaced cells of the classes of a page.
fn replaced_on<K: Kind>(
    alloc: Global,
    replaced: &[(Token<K>, K::Cell)],
    number: usize,
) -> Result<Vec<(Token<K>, K::Cell)>, AllocError>
    ensures { IfOk result (λ some. some.items ≡ on_page number replaced.now) }
{
    let mut some = Vec::new(alloc);
    for pair in replaced {
        if is_on(&pair.0, number) {
            some.push(copy_of(pair))?;
        }
    }
    Ok(some)
}
