//! The lines of a table of cases, by their first words.

ghost use Rattle.std.specs.Prelude.{◌≤◌, length};

use crate::words::{first_word, number_of};
use som_model::NoMemory;
use std::alloc::Global;

/// What a line of a table is, by its first word.
#[derive(Clone, Copy, Debug, PartialEq, Eq)]
pub enum Kind {
    /// `==`: a case begins.
    Case,
    Use,
    Each,
    /// `<`: what a file holds.
    Given,
    /// `!`: a call fails.
    Failing,
    /// `$`: a command.
    Command,
    /// `%`: tokens or a tree.
    Shown,
    /// `=`: the status of the command above.
    Status,
    /// `>`: what a file holds afterwards.
    Wanted,
    Unclear,
}

fn kind_of(word: &[u8]) -> Kind {
    match word {
        b"==" => Kind::Case,
        b"use" => Kind::Use,
        b"each" => Kind::Each,
        b"<" => Kind::Given,
        b"!" => Kind::Failing,
        b"$" => Kind::Command,
        b"%" => Kind::Shown,
        b"=" => Kind::Status,
        b">" => Kind::Wanted,
        _ => Kind::Unclear,
    }
}

/// A line of a table: its number, what its first word says, what comes after that, and its block.
#[derive(Drop)]
pub struct Line<'t> {
    pub number: usize,
    pub kind: Kind,
    pub rest: &'t [u8],
    pub block: Vec<u8>,
}

/// The lines of a table, without comments and empty lines.
pub fn lines_of(alloc: Global, table: &[u8]) -> Result<Vec<Line<'_>>, NoMemory> {
    let mut lines = Vec::new(alloc);
    let mut number = 0usize;
    for text in table.split(|byte| *byte == b'\n') {
        number = number.saturating_add(1);
        match text {
            [] | [b'#', ..] => {}
            [b' ', b' ', b' ', b' ', block @ ..] if !lines.is_empty() => {
                add_to_block(&mut lines, block)?;
            }
            _ => lines.push(line_of(alloc, number, text))?,
        }
    }
    Ok(lines)
}

fn line_of(alloc: Global, number: usize, text: &[u8]) -> Line<'_> {
    let (word, rest) = first_word(text);
    let kind = if text.starts_with(b" ") {
        Kind::Unclear
    } else {
        kind_of(word)
    };
    Line {
        number,
        kind,
        rest,
        block: Vec::new(alloc),
    }
}

// Adds a line to the block of the last line.
fn add_to_block(lines: &mut Vec<Line<'_>>, text: &[u8]) -> Result<(), NoMemory> {
    if let Some(line) = lines.last_mut() {
        line.block.extend_from_slice(text)?;
        line.block.push(b'\n')?;
    }
    Ok(())
}

/// How many lines there are before the next case.
pub fn case_len(lines: &[Line<'_>]) -> usize
    ensures { result ≤ length lines.now }
{
    lines
        .iter()
        .position(|line| line.kind == Kind::Case)
        .unwrap_or(lines.len())
}

/// The status that digits tell.
pub fn status_of(digits: &[u8]) -> Option<u8> {
    u8::try_from(number_of(digits)?).ok()
}

/// The status that a line before the next command tells, and the number of that line.
pub fn wanted_status(lines: &[Line<'_>]) -> Option<(usize, u8)> {
    for line in lines {
        match line.kind {
            Kind::Status => return Some((line.number, status_of(line.rest)?)),
            Kind::Wanted => {}
            _ => return None,
        }
    }
    None
}
