//! What files and words of a case hold once all forms are replaced.

use crate::expansion::{Expansion, Turns};
use crate::fields::Fields;
use crate::files::Files;
use crate::rows::{Rows, rows_of};
use crate::single::single_bytes;
use crate::words::{first_word, number_of};
use crate::wrong::Wrong;
use som_test_report::Variable;
use std::alloc::Global;

/// What the words and blocks of a case stand for, by its files and its variables.
#[derive(Clone, Copy)]
pub struct Contents<'c> {
    pub alloc: Global,
    pub files: &'c Files,
    pub variables: &'c [Variable],
}

impl Contents<'_> {
    fn expansion(&self) -> Expansion<'_> {
        Expansion {
            alloc: self.alloc,
            variables: self.variables,
        }
    }

    /// The rows of an `each`, from what comes after the word and the block.
    pub fn rows<'t>(&self, rest: &'t [u8], block: &[u8]) -> Result<Rows<'t>, Wrong> {
        rows_of(&self.expansion(), rest, block)
    }

    /// A text with its repetitions, variables and numbers replaced.
    pub fn expanded(&self, text: &[u8]) -> Result<Vec<u8>, Wrong> {
        let mut out = Vec::new(self.alloc);
        self.expansion().expand(text, Turns::NONE, &mut out)?;
        Ok(out)
    }

    /// A text with all its forms replaced.
    pub fn filled(&self, text: &[u8]) -> Result<Vec<u8>, Wrong> {
        single_bytes(self.alloc, self.expanded(text)?.as_slice())
    }

    // The bytes of the fields of a text.
    fn fields(&self, text: &[u8]) -> Result<Vec<u8>, Wrong> {
        let fields = Fields {
            alloc: self.alloc,
            files: self.files,
        };
        fields.bytes(self.filled(text)?.as_slice())
    }

    /// What a file holds, by what stands after its name, and by the block.
    pub fn file(&self, rest: &[u8], block: &[u8]) -> Result<Vec<u8>, Wrong> {
        match first_word(rest) {
            (b"", _) => self.filled(block),
            (b":", b"bytes") => self.fields(block),
            (b"=", other) if block.is_empty() => {
                let (other, change) = first_word(other);
                let other = single_bytes(self.alloc, other)?;
                let bytes = self.files.get(other.as_slice()).ok_or(Wrong::Unclear)?;
                self.changed(bytes.as_slice(), change)
            }
            _ => Err(Wrong::Unclear),
        }
    }

    // Bytes that are cut, changed at a place, or followed by others.
    fn changed(&self, bytes: &[u8], change: &[u8]) -> Result<Vec<u8>, Wrong> {
        match change {
            [] => Ok(Vec::from_slice(self.alloc, bytes)?),
            [b'.', b'.', len @ ..] => {
                let len = place_of(len).ok_or(Wrong::Unclear)?;
                let front = bytes.get(..len).ok_or(Wrong::Unclear)?;
                Ok(Vec::from_slice(self.alloc, front)?)
            }
            [b'@', change @ ..] => {
                let (place, fields) = first_word(change);
                let place = place_of(place).ok_or(Wrong::Unclear)?;
                let fields = self.fields(fields)?;
                replaced(self.alloc, bytes, place, fields.as_slice())
            }
            [b'+', fields @ ..] => {
                let fields = self.fields(fields)?;
                joined(self.alloc, bytes, fields.as_slice(), &[])
            }
            _ => Err(Wrong::Unclear),
        }
    }
}

// Bytes with others in the place of as many from a place on.
fn replaced(alloc: Global, bytes: &[u8], place: usize, others: &[u8]) -> Result<Vec<u8>, Wrong> {
    let (front, rest) = bytes.split_at_checked(place).ok_or(Wrong::Unclear)?;
    let rest = rest.get(others.len()..).ok_or(Wrong::Unclear)?;
    joined(alloc, front, others, rest)
}

fn joined(alloc: Global, front: &[u8], middle: &[u8], rest: &[u8]) -> Result<Vec<u8>, Wrong> {
    let mut all = Vec::from_slice(alloc, front)?;
    all.extend_from_slice(middle)?;
    all.extend_from_slice(rest)?;
    Ok(all)
}

fn place_of(digits: &[u8]) -> Option<usize> {
    usize::try_from(number_of(digits)?).ok()
}
