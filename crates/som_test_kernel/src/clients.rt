//! Clients of a library that take turns over one store, a unit a turn.

ghost use Rattle.som_turn_laws.specs.Turns.{turns_of as count_of};
ghost use Rattle.std.specs.List.{All};
ghost use Rattle.std.specs.Prelude.{◌≡◌, ◌<◌, ◌^◌, ℕ, length};

use crate::kernels::kernels_of;
use crate::pattern::turns_of;
use crate::query_fault::QueryFault;
use crate::taking::turn_all;
use crate::telling::tell_text;
use som_classmgr::{Kernel, Linked};
use som_host::HostTable;
use som_interp_state::Runtime;
use som_interp_task::Advanced;
use som_io::MemSink;
use som_model::List;
use som_objects::ObjectStore;
use som_tables::Steps;
use som_tasks::{Turned, run_turns};
use som_test_stepping::NotTaken;
use std::alloc::Global;
use std::marker::Brand;
use std::sync::ledger::{Blank, Ledger};

// Gives the turns, with the steps of look-ups counted.
fn give_counted<L: Ledger, R: Runtime + Drop>(
    alloc: Global,
    kernels: &mut List<R>,
    turns: &List<u8>,
    objects: &mut ObjectStore,
    host: &HostTable,
    out: &mut MemSink,
    blank: Blank,
) -> Turned
    requires name { blank.name ≡ L.name }
    requires parts { blank.parts ≡ L.parts }
    requires some { 0 < blank.parts }
    requires places { All (λ turn. turn < length kernels.old) turns.now }
    requires units { (i : ℕ) → count_of i turns.now < 2 ^ 32 }
{
    let mut steps: Steps<L> = Steps::new(blank);
    run_turns(alloc, kernels, turns, objects, host, out, &mut steps)
}

// Gives the turns, and answers the end of each client.
fn give_turns<R: Runtime + Drop>(
    alloc: Global,
    kernels: &mut List<R>,
    turns: &List<u8>,
    objects: &mut ObjectStore,
    host: &HostTable,
    out: &mut MemSink,
) -> Result<List<Advanced>, NotTaken>
    requires places { All (λ turn. turn < length kernels.old) turns.now }
    requires short { length turns.now < 2 ^ 32 }
{
    let blank = Blank::new(1);
    match give_counted::<Brand, R>(alloc, kernels, turns, objects, host, out, blank) {
        Turned::Finished { ends } => Ok(ends),
        Turned::SinkFailed => Err(NotTaken::Sink),
        Turned::NoMemory => Err(NotTaken::NoMemory),
    }
}

// The word that a line tells for an end.
fn word_of(end: &Advanced) -> &'static str {
    match end {
        Advanced::Going => "going",
        Advanced::Done => "done",
        Advanced::SourceFault { .. } => "fault",
        Advanced::SinkFailed | Advanced::NoMemory => "none",
    }
}

// Prints the end of each client.
fn tell_ends(rt: &HostRuntime, ends: &[Advanced]) -> Result<(), NotTaken> {
    for (number, end) in ends.iter().enumerate() {
        let word = word_of(end);
        println!(rt; "client {number} {word}")?;
    }
    Ok(())
}

/// Gives the turns of clients over one store, and prints their text, their ends, and how many objects they made.
pub fn tell_turns<R: Runtime + Drop>(
    rt: &HostRuntime,
    kernels: &mut List<R>,
    turns: &List<u8>,
    host: &HostTable,
) -> Result<(), NotTaken>
    requires places { All (λ turn. turn < length kernels.old) turns.now }
    requires short { length turns.now < 2 ^ 32 }
{
    let alloc = rt.alloc();
    let mut objects = ObjectStore::new(alloc);
    let mut out = MemSink::new(alloc);
    let ends = give_turns(alloc, kernels, turns, &mut objects, host, &mut out)?;
    tell_text(rt, &out)?;
    tell_ends(rt, ends.as_slice())?;
    println!(rt; "objects {}", objects.made())?;
    Ok(())
}

// Gives the turns of a pattern to clients, each of which has a kernel.
fn turn_by(
    rt: &HostRuntime,
    kernels: &mut List<Kernel<Linked>>,
    pattern: &[u8],
) -> Result<(), QueryFault> {
    let turns = turns_of(rt.alloc(), pattern, kernels.len())?;
    if turns.len() > u32::MAX as usize {
        return Err(QueryFault::Word);
    }
    turn_all(rt, kernels, &turns)?;
    Ok(())
}

/// Links clients, whose files stand with colons between, with a library each by itself, and gives them the turns of a pattern.
pub fn turn_files(
    rt: &HostRuntime,
    pattern: &str,
    library: &str,
    clients: &str,
) -> Result<(), QueryFault> {
    let mut kernels = kernels_of(rt, library, clients)?;
    turn_by(rt, &mut kernels, pattern.as_bytes())
}
