//! Tables read by name from the files of the system, run, and summed up.

use crate::commands::Commands;
use crate::runner::Runner;
use som_model::NoMemory;
use som_test_format::lines_of;
use som_test_report::{Report, Sums};
use std::alloc::Global;
use std::env::Env;
use std::rt::Files;
use std::{env, fs, io};

/// Runs the tables that the arguments name, and tells what came of them.
pub fn run_tables<R: Env + Files + Print + AllocGlobal, C: Commands>(
    rt: &R,
    alloc: Global,
    commands: &C,
) -> io::Result<()> {
    let mut runner = Runner::new(alloc).map_err(out_of_memory)?;
    run_all(rt, alloc, commands, &mut runner)
}

fn run_all<R: Env + Files + Print + AllocGlobal, C: Commands>(
    rt: &R,
    alloc: Global,
    commands: &C,
    runner: &mut Runner,
) -> io::Result<()> {
    let mut sums = Sums::NONE;
    for name in env::args(rt)?.skip(1) {
        sums.add(run_table(rt, alloc, commands, runner, name.as_str())?);
    }
    println!(rt; "all: {}", sums)
}

// Runs a table, and tells what came of it.
fn run_table<R: Files + Print + AllocGlobal, C: Commands>(
    rt: &R,
    alloc: Global,
    commands: &C,
    runner: &mut Runner,
    name: &str,
) -> io::Result<Sums> {
    let table = fs::read(rt, name)?;
    let lines = lines_of(alloc, table.as_slice()).map_err(out_of_memory)?;
    runner
        .run_table(commands, name, lines.as_slice())
        .map_err(out_of_memory)?;
    tell(rt, name, &runner.report)
}

fn tell<R: Print>(rt: &R, name: &str, report: &Report) -> io::Result<Sums> {
    rt.print(report.text.as_str())?;
    let sums = report.sums;
    println!(rt; "{name}: {}", sums)?;
    Ok(sums)
}

fn out_of_memory(_e: NoMemory) -> io::Error {
    io::Error::from(io::ErrorKind::OutOfMemory)
}
