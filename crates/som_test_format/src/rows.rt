//! The rows of an `each`: variables and their values, listed or by a range.

ghost use Rattle.std.specs.Prelude.{◌<◌, IfSome, length};

use crate::expansion::{Expansion, Turns};
use crate::words::{first_word, number_of, push_number, words_in};
use crate::wrong::Wrong;
use som_model::{NoMemory, Text};
use som_test_report::Variable;
use std::alloc::Global;

/// The rows of an `each`: the names of its variables, and their values, row by row.
#[derive(Drop)]
pub struct Rows<'t> {
    pub names: Vec<&'t [u8]>,
    pub rows: Vec<Row>,
}

/// The values of a row.
#[derive(Drop)]
pub struct Row {
    pub cells: Vec<Vec<u8>>,
}

/// The rows of an `each`, from what comes after the word and the block.
pub fn rows_of<'t>(
    expansion: &Expansion<'_>,
    rest: &'t [u8],
    block: &[u8],
) -> Result<Rows<'t>, Wrong> {
    let names = words_in(expansion.alloc, rest)?;
    if block.is_empty() {
        return range_of(expansion, rest);
    }
    let mut rows = Vec::new(expansion.alloc);
    for row in block.split(|byte| *byte == b'\n') {
        if row.is_empty() {
            continue;
        }
        let cells = cells_of(expansion, row)?;
        if cells.len() != names.len() {
            return Err(Wrong::Unclear);
        }
        rows.push(Row { cells })?;
    }
    Ok(Rows { names, rows })
}

// A variable and the numbers from one up to another.
fn range_of<'t>(expansion: &Expansion<'_>, rest: &'t [u8]) -> Result<Rows<'t>, Wrong> {
    let alloc = expansion.alloc;
    let (name, bounds) = first_word(rest);
    let mut text = Vec::new(alloc);
    expansion.expand(bounds, Turns::NONE, &mut text)?;
    let (first, end) = bounds_of(text.as_slice()).ok_or(Wrong::Unclear)?;
    let mut rows = Vec::new(alloc);
    for number in first..end {
        rows.push(row_of(alloc, number)?)?;
    }
    let mut names = Vec::new(alloc);
    names.push(name)?;
    Ok(Rows { names, rows })
}

// The row of one number.
fn row_of(alloc: Global, number: u64) -> Result<Row, Wrong> {
    let mut value = Vec::new(alloc);
    push_number(alloc, &mut value, number)?;
    let mut cells = Vec::new(alloc);
    cells.push(value)?;
    Ok(Row { cells })
}

// The numbers on both sides of two dots.
fn bounds_of(text: &[u8]) -> Option<(u64, u64)> {
    let place = text.iter().position(|byte| *byte == b'.')?;
    let (first, rest) = text.split_at(place);
    let end = rest.strip_prefix(b"..")?;
    Some((number_of(first)?, number_of(end)?))
}

// The cells of a row, between bars that stand between blanks.
fn cells_of(expansion: &Expansion<'_>, row: &[u8]) -> Result<Vec<Vec<u8>>, Wrong> {
    let mut cells = Vec::new(expansion.alloc);
    let mut rest = row;
    loop {
        let (cell, after) = next_cell(rest);
        let mut value = Vec::new(expansion.alloc);
        expansion.expand(cell.trim_ascii(), Turns::NONE, &mut value)?;
        cells.push(value)?;
        match after {
            Some(after) => rest = after,
            None => return Ok(cells),
        }
    }
}

// The first cell, and what comes after its bar.
fn next_cell(row: &[u8]) -> (&[u8], Option<&[u8]>)
    ensures { IfSome result.1 (λ after. length after.now < length row.now) }
{
    let mut rest = row;
    let mut blank = true;
    while let [byte, after @ ..] = rest {
        if *byte == b'|' && blank && matches!(after, [] | [b' ', ..]) {
            let (cell, _) = row.split_at(row.len().saturating_sub(rest.len()));
            return (cell, Some(after));
        }
        blank = *byte == b' ';
        rest = after;
    }
    (row, None)
}

/// Adds the variables of a row to those that are there.
pub fn add_variables(
    alloc: Global,
    variables: &mut Vec<Variable>,
    names: &[&[u8]],
    row: Row,
) -> Result<(), NoMemory> {
    for (name, value) in names.iter().zip(row.cells) {
        let name = Text::from_slice(alloc, name)?;
        variables.push(Variable { name, value })?;
    }
    Ok(())
}
