//! A turn of a task.

ghost use Rattle.som_interp_task.specs.declared.task.Task.{Task as Waiting};
ghost use Rattle.som_test_stepping.specs.Beside.{AreBeside, CanGoOn};
ghost use Rattle.std.specs.Prelude.{OnOk};

use crate::telling::{tell_task, tell_text};
use som_host::HostTable;
use som_interp_state::Runtime;
use som_interp_task::Task;
use som_io::MemSink;
use som_model::Text;
use som_objects::ObjectStore;
use som_test_stepping::{NotTaken, go_on};
use som_trace::TraceFilter;

/// The number that a digit stands for.
pub fn number_of(digit: u8) -> Result<u32, NotTaken> {
    match digit {
        b'0'..=b'9' => Ok(u32::from(digit - b'0')),
        _ => Err(NotTaken::Word),
    }
}

/// A turn of a task of this name: it goes on by these units, if it is live, and what it told is printed, and then how far it
/// has come.
pub fn turn<R: Runtime>(
    rt: &HostRuntime,
    kernel: &mut R,
    task: &mut Task,
    name: &str,
    units: u32,
    objects: &mut ObjectStore,
    trace: &TraceFilter,
    host: &HostTable,
) -> Result<(), NotTaken>
    requires { CanGoOn (R.linked kernel.old) (R.known kernel.old) (R.program kernel.old) (R.made kernel.old) objects.old task.old }
    ensures stands { OnOk result (CanGoOn (R.linked kernel.new) (R.known kernel.new) (R.program kernel.new) (R.made kernel.new) objects.new task.new) }
    ensures beside { OnOk result ((other : Waiting) → AreBeside (R.linked kernel.old) (R.known kernel.old) (R.program kernel.old) (R.made kernel.old) objects.old task.old other
        → AreBeside (R.linked kernel.new) (R.known kernel.new) (R.program kernel.new) (R.made kernel.new) objects.new task.new other) }
{
    if !task.live() {
        println!(rt; "- {name}over")?;
        return Ok(());
    }
    let alloc = rt.alloc();
    let prefix = Text::from_slice(alloc, name.as_bytes())?;
    let mut text = MemSink::new(alloc);
    let ending = go_on(
        alloc, kernel, task, units, objects, trace, host, &prefix, &mut text,
    )?;
    tell_text(rt, &text)?;
    tell_task(rt, name, ending, &*task)
}
