//! The program: words of the command line, files of the system, and standard output.
#![tactic(auto)]

use som_cmd::run_som;
use som_host::{host_entry, host_table};
use som_io_system::{FileStore, StandardOutput};
use som_model::{HostCode, List, NoMemory, Text};
use std::alloc::Global;
use std::env::Env;
use std::process::ExitCode;
use std::rt::Files;
use std::{env, io};

/// What people are told beside the line of a command that has no form: which program it is, and its commands.
const USAGE: &str = "som 1.0 of Kelimbano, for SOM 2.1; images of versions 1 and 2
usage: som library OUT FILE..
       som client OUT LIBRARY FILE..
       som check IMAGE IMAGE..
       som run CLIENT LIBRARY [--fuel N] [--trace [CLASS]]
       som tasks LIBRARY PATTERN ROUNDS CLIENT..
       som witness OUT OLD NEW
       som tower make OUT BELOW.. FILE..
       som tower check OLD NEW
       som tower run CLIENT BELOW.. [--fuel N]
       som show IMAGE
       som generate N
a FILE ends in .idl, .bod or .main; docs/COMMANDS.md tells the rest";

/// The status of words that have no form.
const NO_FORM: u8 = 2;

/// The status of want of memory.
const NO_MEMORY: u8 = 10;

/// Why there are no words.
#[derive(Drop)]
enum NoWords {
    /// An argument is no text.
    Bad,
    Memory,
}

impl From<NoMemory> for NoWords {
    fn from(_e: NoMemory) -> NoWords {
        NoWords::Memory
    }
}

impl From<io::Error> for NoWords {
    fn from(e: io::Error) -> NoWords {
        if e.kind() == io::ErrorKind::OutOfMemory {
            NoWords::Memory
        } else {
            NoWords::Bad
        }
    }
}

// The arguments after the program's name.
fn words_of<R: Env + AllocGlobal>(rt: &R, alloc: Global) -> Result<List<Text>, NoWords> {
    let mut words = List::new(alloc);
    for argument in env::args(rt)?.skip(1) {
        words.push(Text::from_slice(alloc, argument.as_bytes())?)?;
    }
    Ok(words)
}

// The status of a command, with the files of the system, standard output and the host's procedures.
fn run<R: Files + Print>(rt: &R, alloc: Global, words: &List<Text>) -> Result<u8, NoMemory> {
    let host = host_table(
        host_entry(HostCode::Min, Box::new(alloc, |a: i32, b: i32| a.min(b))?),
        host_entry(HostCode::Max, Box::new(alloc, |a: i32, b: i32| a.max(b))?),
        host_entry(HostCode::And, Box::new(alloc, |a: i32, b: i32| a & b)?),
        host_entry(HostCode::Or, Box::new(alloc, |a: i32, b: i32| a | b)?),
        host_entry(HostCode::Xor, Box::new(alloc, |a: i32, b: i32| a ^ b)?),
        host_entry(
            HostCode::WrapAdd,
            Box::new(alloc, |a: i32, b: i32| a.wrapping_add(b))?,
        ),
    );
    let mut store = FileStore::new(rt, alloc);
    let mut out = StandardOutput::new(rt);
    Ok(run_som(alloc, words, &mut store, &mut out, &host))
}

// The status of what the words ask for, or that of want of memory before they are looked at.
fn status_of<R: Files + Print>(rt: &R, alloc: Global, words: &List<Text>) -> u8 {
    match run(rt, alloc, words) {
        Ok(status) => status,
        Err(NoMemory) => NO_MEMORY,
    }
}

// A command's status, before which words that have no form are told more. It stays what it is where that fails.
fn tell_usage<R: Eprint>(rt: &R, status: u8) -> u8 {
    if status == NO_FORM {
        let _ = rt.eprintln(USAGE);
    }
    status
}

fn main(rt: HostRuntime) -> ExitCode {
    let alloc = rt.alloc();
    let status = match words_of(&rt, alloc) {
        Ok(words) => status_of(&rt, alloc, &words),
        // No words at all have no form either.
        Err(NoWords::Bad) => status_of(&rt, alloc, &List::new(alloc)),
        Err(NoWords::Memory) => NO_MEMORY,
    };
    ExitCode::from(tell_usage(&rt, status))
}
