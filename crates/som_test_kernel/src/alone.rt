//! A task that has no others beside it.

ghost use Rattle.som_test_stepping.specs.Beside.{CanGoOn};

use crate::telling::tell_task;
use crate::turning::{number_of, turn};
use som_host::HostTable;
use som_interp_state::Runtime;
use som_interp_task::{Task, start};
use som_objects::ObjectStore;
use som_test_stepping::{Ending, NotTaken};
use som_trace::TraceFilter;

// Takes the turns of a task that has no others beside it.
fn take_turns<R: Runtime>(
    rt: &HostRuntime,
    kernel: &mut R,
    task: &mut Task,
    turns: &[u8],
    objects: &mut ObjectStore,
    trace: &TraceFilter,
    host: &HostTable,
) -> Result<(), NotTaken>
    requires { CanGoOn (R.linked kernel.old) (R.known kernel.old) (R.program kernel.old) (R.made kernel.old) objects.old task.old }
{
    tell_task(rt, "", Ending::Going, &*task)?;
    for units in turns {
        turn(
            rt,
            kernel,
            task,
            "",
            number_of(*units)?,
            objects,
            trace,
            host,
        )?;
    }
    Ok(())
}

/// Starts a task, and goes on with it by as many units as each digit says.
pub fn go_alone<R: Runtime>(
    rt: &HostRuntime,
    kernel: &mut R,
    turns: &[u8],
    trace: &TraceFilter,
    host: &HostTable,
) -> Result<(), NotTaken> {
    let alloc = rt.alloc();
    let mut task = start(alloc, &*kernel)?;
    let mut objects = ObjectStore::new(alloc);
    take_turns(rt, kernel, &mut task, turns, &mut objects, trace, host)
}
