//! A live task advanced beside another over one object store.

ghost use Rattle.som_interp_task.specs.declared.task.Task.{Task as Waiting};
ghost use Rattle.som_test_stepping.specs.Beside.{AreBeside, CanGoOn};
ghost use Rattle.std.specs.Prelude.{◌≡◌, ◌<◌, OnOk, true};

use crate::ending::{Ending, after_advance};
use crate::not_taken::NotTaken;
use som_exec::advance;
use som_host::HostTable;
use som_interp_state::Runtime;
use som_interp_task::Task;
use som_io::MemSink;
use som_model::Text;
use som_objects::ObjectStore;
use som_tables::Steps;
use som_trace::TraceFilter;
use std::alloc::Global;
use std::marker::Brand;
use std::sync::ledger::{Blank, Ledger};

/// Goes on with a live task by these units. It can be gone on with again where it is live, and so can those that it was beside.
pub fn go_on<R: Runtime>(
    alloc: Global,
    kernel: &mut R,
    task: &mut Task,
    units: u32,
    objects: &mut ObjectStore,
    trace: &TraceFilter,
    host: &HostTable,
    prefix: &Text,
    out: &mut MemSink,
) -> Result<Ending, NotTaken>
    requires live { task.old.live ≡ true }
    requires stands { CanGoOn (R.linked kernel.old) (R.known kernel.old) (R.program kernel.old) (R.made kernel.old) objects.old task.old }
    ensures stands { OnOk result (CanGoOn (R.linked kernel.new) (R.known kernel.new) (R.program kernel.new) (R.made kernel.new) objects.new task.new) }
    ensures beside { OnOk result ((other : Waiting) → AreBeside (R.linked kernel.old) (R.known kernel.old) (R.program kernel.old) (R.made kernel.old) objects.old task.old other
        → AreBeside (R.linked kernel.new) (R.known kernel.new) (R.program kernel.new) (R.made kernel.new) objects.new task.new other) }
{
    let blank = Blank::new(1);
    go_counted::<Brand, R>(
        alloc, kernel, task, units, objects, trace, host, prefix, out, blank,
    )
}

// Goes on with a live task, with the steps of look-ups counted.
fn go_counted<L: Ledger, R: Runtime>(
    alloc: Global,
    kernel: &mut R,
    task: &mut Task,
    units: u32,
    objects: &mut ObjectStore,
    trace: &TraceFilter,
    host: &HostTable,
    prefix: &Text,
    out: &mut MemSink,
    blank: Blank,
) -> Result<Ending, NotTaken>
    requires name { blank.name ≡ L.name }
    requires parts { blank.parts ≡ L.parts }
    requires some { 0 < blank.parts }
    requires live { task.old.live ≡ true }
    requires stands { CanGoOn (R.linked kernel.old) (R.known kernel.old) (R.program kernel.old) (R.made kernel.old) objects.old task.old }
    ensures stands { OnOk result (CanGoOn (R.linked kernel.new) (R.known kernel.new) (R.program kernel.new) (R.made kernel.new) objects.new task.new) }
    ensures beside { OnOk result ((other : Waiting) → AreBeside (R.linked kernel.old) (R.known kernel.old) (R.program kernel.old) (R.made kernel.old) objects.old task.old other
        → AreBeside (R.linked kernel.new) (R.known kernel.new) (R.program kernel.new) (R.made kernel.new) objects.new task.new other) }
{
    if units > u32::MAX - task.granted() {
        return Err(NotTaken::Word);
    }
    let mut steps: Steps<L> = Steps::new(blank);
    let answer = advance(
        alloc, task, kernel, units, objects, trace, host, prefix, out, &mut steps,
    );
    after_advance(&answer)
}
