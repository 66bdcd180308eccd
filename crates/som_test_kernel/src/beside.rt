//! Two tasks of a kernel over one store.

ghost use Rattle.som_interp_task.specs.Stands.{StandsAnywhere};
ghost use Rattle.som_test_stepping.specs.Beside.{AreBeside};
ghost use Rattle.std.specs.Prelude.{◌≡◌, [], OnOk};

use crate::telling::tell_task;
use crate::turning::{number_of, turn};
use som_host::HostTable;
use som_interp_state::Runtime;
use som_interp_task::{Task, start};
use som_objects::ObjectStore;
use som_test_stepping::{Ending, NotTaken};
use som_trace::TraceFilter;

// A turn of each of two tasks, one after the other.
fn take_round<R: Runtime>(
    rt: &HostRuntime,
    kernel: &mut R,
    first: &mut Task,
    second: &mut Task,
    units: u32,
    objects: &mut ObjectStore,
    trace: &TraceFilter,
    host: &HostTable,
) -> Result<(), NotTaken>
    requires { AreBeside (R.linked kernel.old) (R.known kernel.old) (R.program kernel.old) (R.made kernel.old) objects.old first.old second.old }
    ensures { OnOk result (AreBeside (R.linked kernel.new) (R.known kernel.new) (R.program kernel.new) (R.made kernel.new) objects.new first.new second.new) }
{
    turn(rt, kernel, first, "0: ", units, objects, trace, host)?;
    turn(rt, kernel, second, "1: ", units, objects, trace, host)
}

// Takes the rounds of two tasks.
fn take_rounds<R: Runtime>(
    rt: &HostRuntime,
    kernel: &mut R,
    first: &mut Task,
    second: &mut Task,
    rounds: &[u8],
    objects: &mut ObjectStore,
    trace: &TraceFilter,
    host: &HostTable,
) -> Result<(), NotTaken>
    requires { AreBeside (R.linked kernel.old) (R.known kernel.old) (R.program kernel.old) (R.made kernel.old) objects.old first.old second.old }
{
    tell_task(rt, "0: ", Ending::Going, &*first)?;
    tell_task(rt, "1: ", Ending::Going, &*second)?;
    for units in rounds {
        take_round(
            rt,
            kernel,
            first,
            second,
            number_of(*units)?,
            objects,
            trace,
            host,
        )?;
    }
    Ok(())
}

// Starts the second of two tasks, and takes their rounds.
fn go_with<R: Runtime>(
    rt: &HostRuntime,
    kernel: &mut R,
    first: &mut Task,
    rounds: &[u8],
    trace: &TraceFilter,
    host: &HostTable,
) -> Result<(), NotTaken>
    requires stands { StandsAnywhere (R.linked kernel.old) (R.known kernel.old) (R.program kernel.old) (R.made kernel.old) first.old }
    requires none { first.old.task.serials ≡ [] }
{
    let alloc = rt.alloc();
    let mut second = start(alloc, &*kernel)?;
    let mut objects = ObjectStore::new(alloc);
    take_rounds(
        rt,
        kernel,
        first,
        &mut second,
        rounds,
        &mut objects,
        trace,
        host,
    )
}

/// Starts two tasks over one store, and gives each a turn by as many units as each digit says.
pub fn go_beside<R: Runtime>(
    rt: &HostRuntime,
    kernel: &mut R,
    rounds: &[u8],
    trace: &TraceFilter,
    host: &HostTable,
) -> Result<(), NotTaken> {
    let mut first = start(rt.alloc(), &*kernel)?;
    go_with(rt, kernel, &mut first, rounds, trace, host)
}
