//! Runs tables of cases on the top call, and tells where what comes differs from what was written down.
#![tactic(auto)]

use som_cmd::run_som;
use som_host::HostTable;
use som_io::{MemSink, MemStore};
use som_model::{List, Text};
use som_test_driver::{Commands, run_tables};
use std::alloc::Global;
use std::io;

// The commands of the top call.
#[derive(Clone, Copy)]
struct Top;

impl Commands for Top {
    fn run(
        &self,
        alloc: Global,
        words: &List<Text>,
        store: &mut MemStore,
        out: &mut MemSink,
        host: &HostTable,
    ) -> u8 {
        run_som(alloc, words, store, out, host)
    }
}

fn main(rt: HostRuntime) -> io::Result<()> {
    run_tables(&rt, rt.alloc(), &Top)
}
