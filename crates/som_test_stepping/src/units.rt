//! A main run by single units, and a main run at once.

ghost use Rattle.som_test_stepping.specs.Beside.{CanGoOn};
ghost use Rattle.std.specs.Prelude.{OnOk, ◌≡◌, ◌<◌, true};

use crate::ending::{Ending, after_run};
use crate::going::go_on;
use crate::not_taken::NotTaken;
use som_exec::run;
use som_host::HostTable;
use som_interp_state::Runtime;
use som_interp_task::{Task, start};
use som_io::MemSink;
use som_model::Text;
use som_objects::ObjectStore;
use som_tables::Steps;
use som_trace::TraceFilter;
use std::alloc::Global;
use std::marker::Brand;
use std::sync::ledger::{Blank, Ledger};

// Goes on with a task by a unit, if it is live; else it has come as far as it had.
fn go_by_unit<R: Runtime>(
    alloc: Global,
    kernel: &mut R,
    task: &mut Task,
    ending: Ending,
    objects: &mut ObjectStore,
    trace: &TraceFilter,
    host: &HostTable,
    prefix: &Text,
    text: &mut MemSink,
) -> Result<Ending, NotTaken>
    requires { CanGoOn (R.linked kernel.old) (R.known kernel.old) (R.program kernel.old) (R.made kernel.old) objects.old task.old }
    ensures { OnOk result (CanGoOn (R.linked kernel.new) (R.known kernel.new) (R.program kernel.new) (R.made kernel.new) objects.new task.new) }
{
    if !task.live() {
        return Ok(ending);
    }
    go_on(alloc, kernel, task, 1, objects, trace, host, prefix, text)
}

// Goes on with a task by no unit and then by single units, as long as it is live.
fn go_by_units<R: Runtime>(
    alloc: Global,
    kernel: &mut R,
    task: &mut Task,
    units: u32,
    objects: &mut ObjectStore,
    trace: &TraceFilter,
    host: &HostTable,
    text: &mut MemSink,
) -> Result<Ending, NotTaken>
    requires live { task.old.live ≡ true }
    requires stands { CanGoOn (R.linked kernel.old) (R.known kernel.old) (R.program kernel.old) (R.made kernel.old) objects.old task.old }
{
    let prefix = Text::from_slice(alloc, b"")?;
    let mut ending = go_on(alloc, kernel, task, 0, objects, trace, host, &prefix, text)?;
    for _unit in 0..units {
        ending = go_by_unit(
            alloc, kernel, task, ending, objects, trace, host, &prefix, text,
        )?;
    }
    Ok(ending)
}

/// Starts a task with a store of its own, and goes on with it by single units.
pub fn run_by_units<R: Runtime>(
    alloc: Global,
    kernel: &mut R,
    fuel: u32,
    trace: &TraceFilter,
    host: &HostTable,
    text: &mut MemSink,
) -> Result<Ending, NotTaken> {
    let mut task = start(alloc, &*kernel)?;
    let mut objects = ObjectStore::new(alloc);
    go_by_units(
        alloc,
        kernel,
        &mut task,
        fuel,
        &mut objects,
        trace,
        host,
        text,
    )
}

/// Runs main at once by this fuel.
pub fn run_at_once<R: Runtime>(
    alloc: Global,
    kernel: &mut R,
    fuel: u32,
    trace: &TraceFilter,
    host: &HostTable,
    text: &mut MemSink,
) -> Result<Ending, NotTaken> {
    run_counted::<Brand, R>(alloc, kernel, fuel, trace, host, text, Blank::new(1))
}

// Runs main at once, with the steps of look-ups counted.
fn run_counted<L: Ledger, R: Runtime>(
    alloc: Global,
    kernel: &mut R,
    fuel: u32,
    trace: &TraceFilter,
    host: &HostTable,
    text: &mut MemSink,
    blank: Blank,
) -> Result<Ending, NotTaken>
    requires name { blank.name ≡ L.name }
    requires parts { blank.parts ≡ L.parts }
    requires some { 0 < blank.parts }
{
    let mut steps: Steps<L> = Steps::new(blank);
    let outcome = run(alloc, kernel, fuel, trace, host, text, &mut steps);
    after_run(&outcome)
}
