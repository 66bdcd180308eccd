//! Each question by its first word, and all lines of a text asked in order.

use crate::bodies::{tell_body, tell_body_above, tell_body_of};
use crate::classes::{
    tell_descent, tell_found, tell_hooks, tell_is_made, tell_metaclass, tell_parents, tell_version,
};
use crate::lines::first_word;
use crate::making::reach;
use crate::methods::tell_entry;
use crate::telling::{told, told_number};
use crate::unasked::Unasked;
use crate::variables::{tell_place, tell_variables};
use som_classmgr::{Kernel, Linked};
use som_model::List;
use std::alloc::Global;

// Tells what a kernel answers to the question that a word asks.
fn tell_answer(
    alloc: Global,
    kernel: &Kernel<Linked>,
    word: &[u8],
    rest: &[u8],
    out: &mut List<u8>,
) -> Result<(), Unasked> {
    match word {
        b"numbered" => Ok(told_number(out, kernel.count())?),
        b"made" | b"reach" => Ok(told_number(out, kernel.made())?),
        b"is_made" => tell_is_made(alloc, kernel, rest, out),
        b"found" => tell_found(alloc, kernel, rest, out),
        b"version" => tell_version(alloc, kernel, rest, out),
        b"parents" => tell_parents(alloc, kernel, rest, out),
        b"descends" => tell_descent(alloc, kernel, rest, out),
        b"metaclass" => tell_metaclass(alloc, kernel, rest, out),
        b"hooks" => tell_hooks(alloc, kernel, rest, out),
        b"body" => tell_body(alloc, kernel, rest, out),
        b"body_of" => tell_body_of(alloc, kernel, rest, out),
        b"above" => tell_body_above(alloc, kernel, rest, out),
        b"entry" => tell_entry(alloc, kernel, rest, out),
        b"variables" => tell_variables(alloc, kernel, rest, out),
        b"place" => tell_place(alloc, kernel, rest, out),
        _ => Err(Unasked::Line),
    }
}

// Asks the question of a line.
fn ask(
    alloc: Global,
    kernel: &mut Kernel<Linked>,
    line: &[u8],
    out: &mut List<u8>,
) -> Result<(), Unasked> {
    let (word, rest) = first_word(line);
    if word == b"reach".as_slice() {
        reach(alloc, kernel, rest)?;
    }
    told(out, line)?;
    told(out, b" -> ")?;
    tell_answer(alloc, kernel, word, rest, out)?;
    told(out, b"\n")?;
    Ok(())
}

/// Asks a linked kernel what stands on each line, in order, but for those that are empty or begin with `#`.
pub fn ask_all(
    alloc: Global,
    kernel: &mut Kernel<Linked>,
    questions: &[u8],
    out: &mut List<u8>,
) -> Result<(), Unasked> {
    told(out, b" -> linked\n")?;
    for line in questions.split(|byte| *byte == b'\n') {
        match line {
            [] | [b'#', ..] => {}
            _ => ask(alloc, kernel, line, out)?,
        }
    }
    Ok(())
}
