//! The name of a class piece by piece, however long names of made classes are.

ghost use Rattle.som_meta.specs.Numbering.{AreNumbered, IsNumbered, key_at};
ghost use Rattle.som_trace.specs.Pieces.{AreParts, IsNext, list_pieces, name_pieces, pieces_left, rest_pieces};
ghost use Rattle.som_trace.specs.declared.pieces.Part.TheVariants as parts;
ghost use Rattle.std.specs.Prelude.{◌≡◌, ◌∷◌, ◌++◌, [], IfOk, OnOk, reverse};

use crate::key_view::{ClassKeys, KeyView};
use som_model::NoMemory;
use som_tables::ClassNo;
use std::alloc::{AllocError, Global};

/// A part of a line: bytes, the name of a class, names with a comma before each and the bracket after them, or the bracket alone.
#[derive(Clone, Copy)]
pub(crate) enum Part<'a> {
    Bytes(&'a [u8]),
    Name(u32),
    Rest(&'a [ClassNo]),
    End,
}

/// Puts a part in front of the rest.
fn push_part<'a>(left: &mut Vec<Part<'a>>, part: Part<'a>) -> Result<(), AllocError>
    ensures { OnOk result (left.new.items ≡ left.old.items ++ part.entry ∷ []) }
{
    left.push(part)?;
    Ok(())
}

/// The name of a class as a whole.
pub(crate) fn whole_name<'a>(alloc: Global, class: ClassNo) -> Result<Vec<Part<'a>>, NoMemory>
    ensures { IfOk result (λ left. left.items ≡ parts.Name class ∷ []) }
{
    let mut left = Vec::new(alloc);
    push_part(&mut left, Part::Name(class.number()))?;
    Ok(left)
}

/// Parts in the opposite order, the last first.
pub(crate) fn last_first<'a>(alloc: Global, parts: &[Part<'a>]) -> Result<Vec<Part<'a>>, NoMemory>
    ensures { IfOk result (λ left. left.items ≡ reverse parts.now) }
{
    let mut left = Vec::from_slice(alloc, parts)?;
    left.reverse();
    Ok(left)
}

/// Puts the names of these, with commas between, and the bracket after them, in front of the rest.
fn push_list<'a>(left: &mut Vec<Part<'a>>, classes: &'a [ClassNo]) -> Result<(), NoMemory>
    ensures pieces { OnOk result ((k : _) → pieces_left k left.new.items ≡ list_pieces k classes.now ++ pieces_left k left.old.items) }
    ensures parts { OnOk result ((k : _) → AreNumbered k classes.now → AreParts k left.old.items → AreParts k left.new.items) }
{
    match classes.split_first() {
        None => Ok(push_part(left, Part::End)?),
        Some((first, others)) => {
            push_part(left, Part::Rest(others))?;
            Ok(push_part(left, Part::Name(first.number()))?)
        }
    }
}

/// The first piece of a class's name; what comes after it is left.
fn begin_name<'a, N: ClassKeys>(
    left: &mut Vec<Part<'a>>,
    classes: &'a N,
    class: ClassNo,
) -> Result<&'a [u8], NoMemory>
    requires class { IsNumbered (N.known classes.now) class }
    requires parts { AreParts (N.known classes.now) left.old.items }
    ensures parts { OnOk result (AreParts (N.known classes.now) left.new.items) }
    ensures piece { IfOk result (λ piece. name_pieces (key_at (N.known classes.now) class) ++ pieces_left (N.known classes.now) left.old.items ≡ piece.now ∷ pieces_left (N.known classes.now) left.new.items) }
{
    match classes.key(class) {
        KeyView::Named { name, .. } => Ok(name.as_slice()),
        KeyView::Derived { parents } => {
            push_list(left, parents.as_slice())?;
            Ok(b"Derived(")
        }
        KeyView::Proxy { target } => {
            push_part(left, Part::End)?;
            push_part(left, Part::Name(target.number()))?;
            Ok(b"Proxy(")
        }
    }
}

/// The first piece of a comma, the name of the first of these, and what comes after it, which is left.
fn begin_rest<'a>(left: &mut Vec<Part<'a>>, classes: &'a [ClassNo]) -> Result<&'a [u8], NoMemory>
    ensures parts { OnOk result ((k : _) → AreNumbered k classes.now → AreParts k left.old.items → AreParts k left.new.items) }
    ensures piece { IfOk result (λ piece. (k : _) → rest_pieces k classes.now ++ pieces_left k left.old.items ≡ piece.now ∷ pieces_left k left.new.items) }
{
    match classes.split_first() {
        None => Ok(b")"),
        Some((first, others)) => {
            push_part(left, Part::Rest(others))?;
            push_part(left, Part::Name(first.number()))?;
            Ok(b",")
        }
    }
}

/// The next piece of the parts that are left, of which the last comes first. It takes a few steps, however long a name is.
pub(crate) fn next_piece<'a, N: ClassKeys>(
    left: &mut Vec<Part<'a>>,
    classes: &'a N,
) -> Result<Option<&'a [u8]>, NoMemory>
    requires { AreParts (N.known classes.now) left.old.items }
    ensures parts { OnOk result (AreParts (N.known classes.now) left.new.items) }
    ensures piece { IfOk result (λ piece. IsNext (pieces_left (N.known classes.now) left.old.items) piece (pieces_left (N.known classes.now) left.new.items)) }
{
    match left.pop() {
        None => Ok(None),
        Some(Part::Bytes(bytes)) => Ok(Some(bytes)),
        Some(Part::Name(class)) => Ok(Some(begin_name(left, classes, ClassNo::new(class))?)),
        Some(Part::Rest(others)) => Ok(Some(begin_rest(left, others)?)),
        Some(Part::End) => Ok(Some(b")")),
    }
}
