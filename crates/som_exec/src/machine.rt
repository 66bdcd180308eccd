//! The machine: a task with its kernel, object store, host, sink and trace, as the loop steps it.

ghost use Rattle.som_interp_loop.specs.Scene.{scene};
ghost use Rattle.som_trace.specs.Filters.{shows_of};
ghost use Rattle.std.specs.Prelude.{◌∷◌, []};

use crate::burst::burst;
use crate::step_next;
use crate::telling::tell_at;
use som_host::HostTable;
use som_interp_loop::{Moves, Stop};
use som_interp_state::{Runtime, Task};
use som_interp_task::Advances;
use som_io::Sink;
use som_model::{Fault, Text};
use som_objects::ObjectStore;
use som_tables::Steps;
use som_trace::{Place, Running, TraceFilter, Untold};
use std::alloc::Global;
use std::sync::ledger::Ledger;

/// A task over a linked kernel, a store of objects, the host's procedures and a sink, with the units that are left.
#[derive(Drop)]
pub struct Machine<'a, R: Runtime, K: Sink, L: Ledger> {
    pub alloc: Global,
    pub runtime: &'a mut R,
    pub task: &'a mut Task,
    pub objects: &'a mut ObjectStore,
    pub host: &'a HostTable,
    pub trace: &'a TraceFilter,
    pub prefix: &'a Text,
    pub fuel: u32,
    pub out: &'a mut K,
    pub steps: &'a mut Steps<L>,
}

impl<'a, R: Runtime, K: Sink, L: Ledger> Moves for Machine<'a, R, K, L> {
    ghost scene = { λ m. scene (R.linked m.runtime.now) (R.known m.runtime.now) (R.program m.runtime.now) (R.made m.runtime.now) m.objects.now m.task.now m.fuel };

    ghost shows = { λ m. shows_of m.trace.now };

    ghost prefix = { λ m. m.prefix.now };

    ghost written = { λ m. K.written m.out.now };

    ghost faults = { λ m. K.faults m.out.now };

    ghost counted = { λ m. m.steps.now };

    ghost calm = { λ m. K.calm m.out.now };

    ghost lent = { λ m. m.runtime.ghost_name ∷ m.task.ghost_name ∷ m.objects.ghost_name ∷ m.out.ghost_name ∷ m.steps.ghost_name ∷ [] };

    fn fuel(&self) -> u32 {
        self.fuel
    }

    fn burst(&mut self) -> Result<(), Stop> {
        burst(
            self.alloc,
            self.runtime,
            self.task,
            self.objects,
            self.host,
            self.trace,
            self.prefix,
            &mut self.fuel,
            self.out,
            self.steps,
        )
    }

    fn step(&mut self) -> Result<bool, Stop> {
        step_next(
            self.alloc,
            self.runtime,
            self.task,
            self.objects,
            self.host,
            self.trace,
            self.prefix,
            &mut self.fuel,
            self.out,
            self.steps,
        )
    }
}

impl<'a, R: Runtime, K: Sink, L: Ledger> Advances for Machine<'a, R, K, L> {
    fn grant(&mut self, units: u32) {
        self.task.granted += units;
        self.task.begun = true;
        self.fuel = units;
    }

    fn tell_fault(&mut self, fault: Fault, at: Place) -> Result<Running, Untold> {
        self.runtime.know();
        tell_at(self.alloc, &*self.runtime, self.prefix, self.out, fault, at)
    }
}
