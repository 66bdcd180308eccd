//! Whether the next instruction makes a call, or wants a unit of fuel where none is left.

ghost use Rattle.som_code_cache.specs.Coded.{codes_of};
ghost use Rattle.som_machine_laws.specs.Frames.{Waiting};
ghost use Rattle.som_interp_ops.specs.Cells.{top_cell};
ghost use Rattle.som_semantics.specs.Runs.{Ends, Spent};
ghost use Rattle.som_semantics.specs.State.{Heap, State};
ghost use Rattle.som_interp_loop.specs.Scene.{scene};
ghost use Rattle.som_interp_loop.specs.NextInstruction.{Runs, act_of, is_call as calls, next_of};
ghost use Rattle.som_interp_body.specs.Obeying.{IsRunning, takes_unit};
ghost use Rattle.som_interp_state.specs.Settings.{instruction_at};
ghost use Rattle.som_values.specs.Shown.{IsSeen, Showing, shown};
ghost use Rattle.som_values.specs.Stored.{Holds, IsKept};
ghost use Rattle.std.specs.Prelude.{◌≡◌, ◌≢◌, ◌<◌, length, List, Some, false, true};

use crate::proxy::callable;
use som_code::Instruction;
use som_code_cache::Codes;
use som_interp_state::{Body, Runtime, Task};
use som_objects::{Cell, ObjectStore};

/// Whether the next instruction of a body makes a call.
pub fn is_call(codes: &Codes, body: &Body) -> bool
    requires { body.now.code < length codes.now }
    ensures { result ≡ calls (instruction_at (codes_of codes.now) body.now.code body.now.at) }
{
    let code = codes.get(body.code);
    if body.at < code.len() {
        makes_call(code.at(body.at))
    } else {
        false
    }
}

fn makes_call(instruction: &Instruction) -> bool
    ensures { result ≡ calls (Some instruction.now) }
{
    match instruction {
        Instruction::New(_) => true,
        Instruction::OffsetCall { .. } => true,
        Instruction::Lookup { .. } => true,
        Instruction::Dispatch { .. } => true,
        Instruction::ParentCall { .. } => true,
        Instruction::ParentsCall { .. } => true,
        _ => false,
    }
}

/// Whether the next instruction of a body, which makes no call, wants a unit where none is left, so that nothing is to
/// be done.
pub fn is_spent<R: Runtime>(
    runtime: &R,
    task: &Task,
    objects: &ObjectStore,
    fuel: u32,
    body: &Body,
) -> bool
    requires running { IsRunning (scene (R.linked runtime.now) (R.known runtime.now) (R.program runtime.now) (R.made runtime.now) objects.now task.now fuel) body.now }
    requires no_call { calls (next_of (scene (R.linked runtime.now) (R.known runtime.now) (R.program runtime.now) (R.made runtime.now) objects.now task.now fuel) body.now) ≡ false }
    ensures spent { result ≡ true → (ws : List Waiting) (s : State) → Runs (scene (R.linked runtime.now) (R.known runtime.now) (R.program runtime.now) (R.made runtime.now) objects.now task.now fuel) body.now s.heap ws → s.fuel ≡ fuel
        → (act_of (scene (R.linked runtime.now) (R.known runtime.now) (R.program runtime.now) (R.made runtime.now) objects.now task.now fuel) body.now ws).does s ≡ Ends Spent s }
    ensures goes { result ≡ false → (ws : List Waiting) (s : State) → Runs (scene (R.linked runtime.now) (R.known runtime.now) (R.program runtime.now) (R.made runtime.now) objects.now task.now fuel) body.now s.heap ws → s.fuel ≡ fuel
        → (act_of (scene (R.linked runtime.now) (R.known runtime.now) (R.program runtime.now) (R.made runtime.now) objects.now task.now fuel) body.now ws).does s ≢ Ends Spent s }
{
    if fuel > 0 {
        return false;
    }
    let code = task.codes.get(body.code);
    if body.at < code.len() {
        wants_unit(objects, code.at(body.at), &body.operands)
    } else {
        false
    }
}

// Whether an instruction takes a unit with these operands: a turn does, and so does a proxy of what can be called.
fn wants_unit(objects: &ObjectStore, instruction: &Instruction, operands: &Vec<Cell>) -> bool
    requires { IsKept objects.now (top_cell operands.now.items) }
    ensures { (s : Showing) (h : Heap) → Holds s objects.now h → IsSeen s (top_cell operands.now.items) → result ≡ takes_unit h instruction.now (shown s (top_cell operands.now.items)) }
{
    match instruction {
        Instruction::Turn => true,
        Instruction::Proxy(_) => callable(objects, operands).is_ok(),
        _ => false,
    }
}
