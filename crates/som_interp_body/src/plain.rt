//! Instructions that change nothing but the frame of their body.

ghost use Rattle.som_interp_ops.specs.Cells.{top_cell};
ghost use Rattle.som_interp_ops.specs.Doing.{Did, HasClasses};
ghost use Rattle.som_semantics.specs.State.{Heap};
ghost use Rattle.som_interp_loop.specs.Scene.{scene};
ghost use Rattle.som_interp_loop.specs.declared.stop.Stop.TheVariants as stops;
ghost use Rattle.som_interp_loop.specs.NextInstruction.{next_of, stop_at};
ghost use Rattle.som_interp_body.specs.Obeying.{ComesTo, following, is_plain};
ghost use Rattle.som_interp_state.specs.Own.{IsOwnBody};
ghost use Rattle.som_interp_state.specs.Settings.{Setting};
ghost use Rattle.som_interp_state.specs.Stored.{HoldsHeap};
ghost use Rattle.som_interp_state.specs.declared.task.Task.{Task};
ghost use Rattle.som_values.specs.Shown.{AreApart};
ghost use Rattle.som_values.specs.Stored.{IsClassed, IsKept};
ghost use Rattle.std.specs.Prelude.{◌≡◌, ◌≢◌, ◌<◌, ◌+◌, ◌^◌, [], ℕ, Err, OnOk, Some, true};

use crate::outcome::Outcome;
use som_code::Instruction;
use som_host::HostTable;
use som_interp_loop::Stop;
use som_interp_ops::{
    binary, call_host, cast, cut, drop_top, get, isa, jump, push_constant, push_manager, push_me,
    set, unary, unless,
};
use som_interp_state::{Body, Runtime};
use som_objects::ObjectStore;
use som_trace::Place;
use som_values::Stopped;
use std::alloc::Global;

/// Obeys an instruction that changes its body alone.
pub(crate) fn obey_plain<R: Runtime>(
    alloc: Global,
    runtime: &R,
    objects: &ObjectStore,
    host: &HostTable,
    instruction: &Instruction,
    body: &mut Body,
) -> Result<Outcome, Stop>
    requires room { body.old.at + 1 < 2 ^ 64 }
    requires kind { is_plain instruction.now ≡ true }
    requires kept { IsKept objects.now (top_cell body.old.operands.items) }
    requires classed { IsClassed (R.keys runtime.now) (R.made runtime.now) objects.now (top_cell body.old.operands.items) }
    ensures sound { result ≢ Err stops.SinkFailed }
    ensures comes { (t : Task) (f : ℕ) → next_of (scene (R.linked runtime.now) (R.known runtime.now) (R.program runtime.now) (R.made runtime.now) objects.now t f) body.old ≡ Some instruction.now
        → ComesTo (scene (R.linked runtime.now) (R.known runtime.now) (R.program runtime.now) (R.made runtime.now) objects.now t f) (scene (R.linked runtime.now) (R.known runtime.now) (R.program runtime.now) (R.made runtime.now) objects.now t f)
        body.old (following result body.new) [] }
{
    runtime.know();
    let at = body.place;
    match plainly(alloc, runtime, objects, host, instruction, body) {
        Ok(()) => Ok(Outcome::GoesOn),
        Err(stopped) => Err(stop(at, stopped)),
    }
}

/// Why a task stops, where a value isn't answered in this place.
pub(crate) fn stop(at: Place, stopped: Stopped) -> Stop
    ensures value { result ≡ stop_at at stopped }
    ensures sound { result ≢ stops.SinkFailed }
{
    match stopped {
        Stopped::Fault(fault) => Stop::Fault { fault, at },
        Stopped::NoMemory => Stop::NoMemory,
    }
}

fn plainly<R: Runtime>(
    alloc: Global,
    runtime: &R,
    objects: &ObjectStore,
    host: &HostTable,
    instruction: &Instruction,
    body: &mut Body,
) -> Result<(), Stopped>
    requires room { body.old.at + 1 < 2 ^ 64 }
    requires kind { is_plain instruction.now ≡ true }
    requires kept { IsKept objects.now (top_cell body.old.operands.items) }
    requires classed { IsClassed (R.keys runtime.now) (R.made runtime.now) objects.now (top_cell body.old.operands.items) }
    ensures did { (s : Setting) (h : Heap) → HasClasses (R.keys runtime.now) (R.world runtime.now) s.linked → AreApart s.linked.keys → IsOwnBody s objects.now body.old → HoldsHeap s.linked s.serials objects.now h
        → Did s h body.old result body.new instruction.now }
    ensures own { (s : Setting) → IsOwnBody s objects.now body.old → OnOk result (IsOwnBody s objects.now body.new) }
{
    match instruction {
        Instruction::Push(constant) => push_constant(alloc, constant, body),
        Instruction::Get(place) => get(*place, body),
        Instruction::Set(place) => set(*place, body),
        Instruction::Cut(place) => cut(*place, body),
        Instruction::Me => push_me(body),
        Instruction::Unary(number) => unary(alloc, *number, body),
        Instruction::Binary(number) => binary(alloc, *number, body),
        Instruction::Jump(place) => jump(*place, body),
        Instruction::Unless(place) => unless(*place, body),
        Instruction::Manager => push_manager(body),
        Instruction::Cast(class) => cast(runtime, objects, class, body),
        Instruction::Isa(class) => isa(runtime, objects, class, body),
        Instruction::Host(code) => call_host(host, *code, body),
        Instruction::Drop => drop_top(body),
        _ => unreachable!(),
    }
}
