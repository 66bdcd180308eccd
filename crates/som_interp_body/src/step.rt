//! One instruction without a call, chosen by its form.

ghost use Rattle.som_io.specs.Outside.{Rose};
ghost use Rattle.som_interp_loop.specs.Moving.{Keeps};
ghost use Rattle.som_interp_loop.specs.Scene.{scene};
ghost use Rattle.som_interp_loop.specs.declared.stop.Stop.TheVariants as stops;
ghost use Rattle.som_interp_loop.specs.NextInstruction.{is_call, next_of};
ghost use Rattle.som_interp_body.specs.Obeying.{IsRunning, Obeyed, following};
ghost use Rattle.std.specs.Prelude.{◌≡◌, ◌≢◌, ◌≤◌, Err, false};

use crate::class::class_object;
use crate::outcome::Outcome;
use crate::plain::obey_plain;
use crate::print::print;
use crate::proxy::proxy;
use crate::turn::turn;
use crate::variables::{get_variable, set_variable};
use som_code::Instruction;
use som_host::HostTable;
use som_interp_loop::Stop;
use som_interp_objects::zero_cell;
use som_interp_ops::pop;
use som_interp_state::{Body, Runtime, Task};
use som_io::Sink;
use som_model::Text;
use som_objects::ObjectStore;
use std::alloc::Global;

/// Obeys the next instruction of a body where it stands, which makes no call. Where it ends the body, its answer is told.
pub fn obey_in_place<R: Runtime, K: Sink>(
    alloc: Global,
    runtime: &mut R,
    task: &mut Task,
    objects: &mut ObjectStore,
    host: &HostTable,
    prefix: &Text,
    fuel: &mut u32,
    out: &mut K,
    body: &mut Body,
) -> Result<Outcome, Stop>
    requires running { IsRunning (scene (R.linked runtime.old) (R.known runtime.old) (R.program runtime.old) (R.made runtime.old) objects.old task.old fuel.old) body.old }
    requires no_call { is_call (next_of (scene (R.linked runtime.old) (R.known runtime.old) (R.program runtime.old) (R.made runtime.old) objects.old task.old fuel.old) body.old) ≡ false }
    ensures obeyed { Obeyed prefix.now (K.written out.old) (K.written out.new)
        (scene (R.linked runtime.old) (R.known runtime.old) (R.program runtime.old) (R.made runtime.old) objects.old task.old fuel.old)
        (scene (R.linked runtime.new) (R.known runtime.new) (R.program runtime.new) (R.made runtime.new) objects.new task.new fuel.new) body.old (following result body.new) }
    ensures keeps { Keeps (scene (R.linked runtime.old) (R.known runtime.old) (R.program runtime.old) (R.made runtime.old) objects.old task.old fuel.old)
        (scene (R.linked runtime.new) (R.known runtime.new) (R.program runtime.new) (R.made runtime.new) objects.new task.new fuel.new) }

    ensures later { K.faults out.old ≤ K.faults out.new }
    ensures cause { result ≡ Err stops.SinkFailed → Rose (K.faults out.old) (K.faults out.new) }

    ensures calm_stays { K.calm out.old → K.calm out.new }
    ensures calm_count { K.calm out.old → K.faults out.new ≡ K.faults out.old }
    ensures calm_answer { K.calm out.old → result ≢ Err stops.SinkFailed }
{
    runtime.know();
    let code = task.codes.get(body.code);
    if body.at >= code.len() {
        return Ok(Outcome::Answers(zero_cell(body.zero)));
    }
    match code.at(body.at) {
        Instruction::Return => Ok(Outcome::Answers(zero_cell(body.zero))),
        Instruction::ReturnValue => Ok(Outcome::Answers(pop(&mut body.operands))),
        Instruction::Turn => turn(fuel, body),
        Instruction::Class(class) => class_object(alloc, runtime, class, body),
        Instruction::Print => print(alloc, prefix, out, body),
        Instruction::GetVariable(variable) => {
            get_variable(runtime, task, objects, *variable, body)
        },
        Instruction::SetVariable(variable) => {
            let variable = *variable;
            set_variable(alloc, runtime, task, objects, variable, body)
        },
        Instruction::Proxy(class) => {
            let number = runtime.proxy_of(class);
            proxy(alloc, runtime, task, objects, number, fuel, body)
        },
        instruction => obey_plain(alloc, runtime, objects, host, instruction, body),
    }
}
