//! Files of cases: towers with questions, and pairs of libraries of towers.

use crate::asking::ask_files;
use crate::comparing::compare_files;
use crate::refused::{Refused, TowerFault};
use crate::telling::tell_bytes;
use crate::tower::Files;
use som_model::NoMemory;
use som_test_queries::first_line;
use std::alloc::Global;
use std::fs;

// The words of a line.
fn words_of(alloc: Global, line: &[u8]) -> Result<Vec<&[u8]>, NoMemory> {
    let mut words = Vec::new(alloc);
    for word in line.split(|byte| *byte == b' ') {
        if !word.is_empty() {
            words.push(word)?;
        }
    }
    Ok(words)
}

// Asks the tower of these files: that of its client stands first, and then those of its libraries from the lowest up.
fn ask_tower(rt: &HostRuntime, names: &[&[u8]], questions: &[u8]) -> Result<(), Refused> {
    match names {
        [client, base, uppers @ ..] => {
            let files = Files {
                client: *client,
                base: *base,
                uppers,
            };
            ask_files(rt, &files, questions)
        }
        _ => Err(Refused::Fault(TowerFault::Word)),
    }
}

// Compares two libraries, the older one first.
fn compare_pair(rt: &HostRuntime, names: &[&[u8]]) -> Result<(), Refused> {
    match names {
        [old, new] => compare_files(rt, *old, *new),
        _ => Err(Refused::Fault(TowerFault::Word)),
    }
}

// Prints what is told where there is no other answer.
fn tell_end(rt: &HostRuntime, outcome: Result<(), Refused>) -> Result<(), TowerFault> {
    match outcome {
        Ok(_) => Ok(()),
        Err(Refused::Told(line)) => {
            tell_bytes(rt, b" -> ")?;
            tell_bytes(rt, line.as_slice())?;
            tell_bytes(rt, b"\n")?;
            Ok(())
        }
        Err(Refused::Fault(fault)) => Err(fault),
    }
}

// Asks a case: its first line has the files of a tower, and each further line is a question.
fn ask_case(rt: &HostRuntime, case: &[u8]) -> Result<(), TowerFault> {
    let (first, questions) = first_line(case);
    tell_bytes(rt, b"=")?;
    tell_bytes(rt, first)?;
    let names = words_of(rt.alloc(), first)?;
    tell_end(rt, ask_tower(rt, names.as_slice(), questions))?;
    println!(rt; "")?;
    Ok(())
}

/// Asks the cases of a file, and prints what each comes to. What stands before the first one is passed over.
pub fn ask_file(rt: &HostRuntime, path: &str) -> Result<(), TowerFault> {
    let cases = fs::read(rt, path)?;
    for case in cases.as_slice().split(|byte| *byte == b'=').skip(1) {
        ask_case(rt, case)?;
    }
    Ok(())
}

// Compares the libraries of a line.
fn compare_line(rt: &HostRuntime, line: &[u8]) -> Result<(), TowerFault> {
    tell_bytes(rt, line)?;
    let names = words_of(rt.alloc(), line)?;
    tell_end(rt, compare_pair(rt, names.as_slice()))
}

/// Compares the libraries of each line of a file, but for those that are empty or begin with `#`, and prints what each comes to.
pub fn compare_file(rt: &HostRuntime, path: &str) -> Result<(), TowerFault> {
    let pairs = fs::read(rt, path)?;
    for line in pairs.as_slice().split(|byte| *byte == b'\n') {
        match line {
            [] | [b'#', ..] => {}
            _ => compare_line(rt, line)?,
        }
    }
    Ok(())
}
