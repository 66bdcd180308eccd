//! Runs by each fuel, at once and by single units.

use crate::telling::tell_text;
use crate::turning::number_of;
use som_host::HostTable;
use som_interp_state::Runtime;
use som_io::MemSink;
use som_model::List;
use som_test_stepping::{NotTaken, run_at_once, run_by_units, word_of};
use som_trace::TraceFilter;

fn are_same(one: &List<u8>, other: &List<u8>) -> bool {
    one.as_slice() == other.as_slice()
}

// Runs main by this fuel, at once and by single units, and tells the text of the first and whether the other is the same.
fn compare<R: Runtime>(
    rt: &HostRuntime,
    kernel: &mut R,
    fuel: u32,
    trace: &TraceFilter,
    host: &HostTable,
) -> Result<(), NotTaken> {
    let alloc = rt.alloc();
    let mut text = MemSink::new(alloc);
    let ending = run_at_once(alloc, kernel, fuel, trace, host, &mut text)?;
    let mut by_units = MemSink::new(alloc);
    let end = run_by_units(alloc, kernel, fuel, trace, host, &mut by_units)?;
    tell_text(rt, &text)?;
    let same = end == ending && are_same(text.bytes(), by_units.bytes());
    let answer = if same { "same" } else { "not the same" };
    println!(rt; "- fuel {fuel}: {answer}, {}", word_of(ending))?;
    Ok(())
}

/// Compares runs by the fuel of each digit.
pub fn compare_all<R: Runtime>(
    rt: &HostRuntime,
    kernel: &mut R,
    fuels: &[u8],
    trace: &TraceFilter,
    host: &HostTable,
) -> Result<(), NotTaken> {
    for fuel in fuels {
        compare(rt, kernel, number_of(*fuel)?, trace, host)?;
    }
    Ok(())
}
