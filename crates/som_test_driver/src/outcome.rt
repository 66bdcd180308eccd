//! One command over a store and a sink in memory, with calls that are made to fail.

use crate::after::changed_files;
use crate::commands::{Commands, status_of};
use som_io::{Leaves, MemSink, MemStore, Put, Store};
use som_model::{List, NoMemory, Text};
use som_test_format::{File, Files};
use som_test_report::Answer;
use std::alloc::Global;

/// A call on the store that fails, and what it leaves where it is a put.
#[derive(Clone, Copy)]
pub struct FailingCall {
    pub call: u64,
    pub leaves: Leaves,
}

/// The calls of the next command that fail, counted from 0.
#[derive(Drop)]
pub struct Failing {
    pub store: Vec<FailingCall>,
    pub sink: Vec<u64>,
}

impl Failing {
    pub fn new(alloc: Global) -> Failing {
        Failing {
            store: Vec::new(alloc),
            sink: Vec::new(alloc),
        }
    }
}

/// What a command of a case came to: its text and status, and the files that it changed.
#[derive(Drop)]
pub struct Outcome {
    pub answer: Answer,
    /// The files that hold something else than before.
    pub changed: Vec<File>,
}

/// Runs a command over the files.
pub fn outcome_of<C: Commands>(
    alloc: Global,
    commands: &C,
    words: &List<Text>,
    files: &Files,
    failing: &Failing,
) -> Result<Outcome, NoMemory> {
    let mut store = store_of(alloc, files, failing.store.as_slice())?;
    let answer = answer_of(alloc, commands, words, &mut store, failing.sink.as_slice())?;
    let changed = changed_files(alloc, store, files, words, failing.store.len())?;
    Ok(Outcome { answer, changed })
}

// What a command prints to a sink of which these calls fail, and its status.
fn answer_of<C: Commands>(
    alloc: Global,
    commands: &C,
    words: &List<Text>,
    store: &mut MemStore,
    failing: &[u64],
) -> Result<Answer, NoMemory> {
    let mut out = sink_of(alloc, failing)?;
    let status = status_of(alloc, commands, words, store, &mut out)?;
    let printed = out.bytes().copy(alloc)?;
    Ok(Answer { printed, status })
}

// A sink of which these calls fail.
fn sink_of(alloc: Global, failing: &[u64]) -> Result<MemSink, NoMemory> {
    let mut out = MemSink::new(alloc);
    for call in failing {
        out.fail(*call)?;
    }
    Ok(out)
}

// A store that holds the files, of which these calls fail.
fn store_of(alloc: Global, files: &Files, failing: &[FailingCall]) -> Result<MemStore, NoMemory> {
    let mut store = MemStore::new(alloc);
    let made = put_files(&mut store, files)?;
    for failing in failing {
        store.fail_put(made.saturating_add(failing.call), failing.leaves)?;
    }
    Ok(store)
}

// Puts the files, and answers how many calls that took.
fn put_files(store: &mut MemStore, files: &Files) -> Result<u64, NoMemory> {
    let mut made = 0u64;
    for file in files.as_slice() {
        let Some(bytes) = files.get(file.name.as_slice()) else {
            continue;
        };
        if store.put(&file.name, bytes) != Put::Done {
            return Err(NoMemory);
        }
        made = made.saturating_add(1);
    }
    Ok(made)
}
