//! The trait by which commands of cases are run.

use som_host::{HostTable, host_entry, host_table};
use som_io::{MemSink, MemStore};
use som_model::{HostCode, List, NoMemory, Text};
use std::alloc::Global;

/// What runs the commands of cases.
pub trait Commands {
    /// Does what the words ask for, with the files of a store, the text to a sink and a host's procedures, and answers the status.
    fn run(
        &self,
        alloc: Global,
        words: &List<Text>,
        store: &mut MemStore,
        out: &mut MemSink,
        host: &HostTable,
    ) -> u8;
}

/// The status of a command, with the host's procedures.
pub fn status_of<C: Commands>(
    alloc: Global,
    commands: &C,
    words: &List<Text>,
    store: &mut MemStore,
    out: &mut MemSink,
) -> Result<u8, NoMemory> {
    let host = host_table(
        host_entry(HostCode::Min, Box::new(alloc, |a: i32, b: i32| a.min(b))?),
        host_entry(HostCode::Max, Box::new(alloc, |a: i32, b: i32| a.max(b))?),
        host_entry(HostCode::And, Box::new(alloc, |a: i32, b: i32| a & b)?),
        host_entry(HostCode::Or, Box::new(alloc, |a: i32, b: i32| a | b)?),
        host_entry(HostCode::Xor, Box::new(alloc, |a: i32, b: i32| a ^ b)?),
        host_entry(
            HostCode::WrapAdd,
            Box::new(alloc, |a: i32, b: i32| a.wrapping_add(b))?,
        ),
    );
    Ok(commands.run(alloc, words, store, out, &host))
}
