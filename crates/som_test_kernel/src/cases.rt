//! Files of cases: the first line of each says what its kernel is made of, and each further line is a question.

use crate::kernels::query_files;
use crate::levels::query_rows;
use crate::queries::Query;
use crate::query_fault::QueryFault;
use crate::telling::tell_bytes;
use som_test_queries::{first_line, first_word};
use std::fs;

// The path of the file that a word names.
fn path_of(name: &[u8]) -> Result<&str, QueryFault> {
    match str::from_utf8(name) {
        Ok(path) => Ok(path),
        Err(_) => Err(QueryFault::Word),
    }
}

/// What the first line of a case says.
#[derive(Clone, Copy)]
pub enum Ground {
    /// The files of a client and a library.
    Images,
    /// Classes, in the order in which they are laid.
    Classes,
}

// Asks the kernel of the images that a line names.
fn ask_images(rt: &HostRuntime, names: &[u8], query: &Query<'_>) -> Result<(), QueryFault> {
    let (client, library) = first_word(names);
    query_files(rt, path_of(client)?, path_of(library)?, query)
}

// Asks a case: its first line says what its kernel is made of, and each further line is a question.
fn ask_case(rt: &HostRuntime, ground: Ground, case: &[u8]) -> Result<(), QueryFault> {
    let (first, questions) = first_line(case);
    tell_bytes(rt, b"=")?;
    tell_bytes(rt, first)?;
    let query = Query::Questions(questions);
    match ground {
        Ground::Images => ask_images(rt, first, &query)?,
        Ground::Classes => query_rows(rt, first, &query)?,
    }
    println!(rt; "")?;
    Ok(())
}

// Asks each case. What stands before the first one is passed over.
fn ask_cases(rt: &HostRuntime, ground: Ground, cases: &[u8]) -> Result<(), QueryFault> {
    for case in cases.split(|byte| *byte == b'=').skip(1) {
        ask_case(rt, ground, case)?;
    }
    Ok(())
}

/// Asks the cases of a file, and prints what each comes to.
pub fn ask_file(rt: &HostRuntime, ground: Ground, path: &str) -> Result<(), QueryFault> {
    let cases = fs::read(rt, path)?;
    ask_cases(rt, ground, cases.as_slice())
}
