//! Formats the first lines, which tell how many classes a library or a client has.

ghost use Rattle.som_show.specs.Shown.{client_line, library_line};
ghost use Rattle.std.specs.Prelude.{◌≡◌, IfOk};

use crate::name::add_number;
use som_model::{NoMemory, Text};
use std::alloc::Global;

/// How many classes a library has.
pub fn library_count(alloc: Global, count: usize) -> Result<Text, NoMemory>
    ensures { IfOk result (λ line. line ≡ library_line count) }
{
    let mut line = Vec::new(alloc);
    line.extend_from_slice(b"library ")?;
    add_number(&mut line, count as u64)?;
    line.push(b'\n')?;
    Ok(Text::from_vec(line))
}

/// How many classes a client has of its own.
pub fn client_count(alloc: Global, count: usize) -> Result<Text, NoMemory>
    ensures { IfOk result (λ line. line ≡ client_line count) }
{
    let mut line = Vec::new(alloc);
    line.extend_from_slice(b"client ")?;
    add_number(&mut line, count as u64)?;
    line.push(b'\n')?;
    Ok(Text::from_vec(line))
}
