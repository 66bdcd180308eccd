//! Dispatch: somDispatchName is asked for the name, and then the call goes by that name.

ghost use Rattle.som_interp_calls.specs.Answering.{IsMet, Resumes};
ghost use Rattle.som_interp_calls.specs.Calling.{ComesTo, PassesIn};
ghost use Rattle.som_interp_loop.specs.NextInstruction.{next_of};
ghost use Rattle.som_code.specs.declared.instruction.Instruction.{Instruction};
ghost use Rattle.som_code.specs.declared.instruction.Instruction.TheVariants as ops;
ghost use Rattle.som_code_cache.specs.Coded.{codes_of};
ghost use Rattle.som_machine_laws.specs.Passed.{passes_named};
ghost use Rattle.som_semantics.specs.State.{Heap};
ghost use Rattle.som_model.specs.declared.key.ValueType.{ValueType as Kind};
ghost use Rattle.som_model.specs.declared.key.ValueType.TheVariants as types;
ghost use Rattle.som_interp_loop.specs.Scene.{scene};
ghost use Rattle.som_objects.specs.declared.cell.Cell.TheVariants as cells;
ghost use Rattle.som_interp_state.specs.Named.{HaveOwner, IsOnLive, IsUsableCall, Owner, setting};
ghost use Rattle.som_interp_state.specs.Holding.{IsUsable};
ghost use Rattle.som_interp_state.specs.Own.{IsOwnPlace};
ghost use Rattle.som_interp_state.specs.Settings.{instruction_at, result_wanted};
ghost use Rattle.som_interp_state.specs.Standing.{place_shown};
ghost use Rattle.som_interp_state.specs.declared.frames.Waiting.TheVariants as waits;
ghost use Rattle.som_interp_state.specs.declared.task.Task.{Task as Running};
ghost use Rattle.som_trace.specs.Events.{manner_of};
ghost use Rattle.som_trace.specs.declared.manner.Manner.TheVariants as manners;
ghost use Rattle.som_values.specs.Shown.{IsSeen, all_shown, shown, showing};
ghost use Rattle.som_values.specs.Stored.{Holds};
ghost use Rattle.std.specs.List.{All};
ghost use Rattle.som_interp_state.specs.Asked.{HaveAncestors};
ghost use Rattle.std.specs.Prelude.{◌≡◌, ◌<◌, ◌+◌, ◌^◌, ◌∷◌, ◌≤◌, [], ℕ, IfNone, IfOk, IfSome, List, Some};

use crate::calls::wait;
use crate::operands::take_call;
use crate::tested::{test_named, test_offset};
use som_code::Instruction;
use som_code_cache::Codes;
use som_interp_dispatch::dispatch_token;
use som_interp_loop::Stop;
use som_interp_state::{Body, Call, Frames, Now, Runtime, Task, Waiting};
use som_model::{NoMemory, Text, ValueType};
use som_objects::{Cell, ObjectStore, SharedText};
use som_tables::Steps;
use som_trace::{Manner, Place};
use som_values::{copy_cell, text_of};
use std::alloc::Global;
use std::sync::ledger::Ledger;

/// A dispatch: somDispatchName is called with the name. The body waits, and above it wait the receiver and the
/// arguments for the name that it answers.
pub fn dispatch_call<R: Runtime>(
    alloc: Global,
    runtime: &R,
    objects: &ObjectStore,
    frames: &mut Frames,
    mut body: Body,
    name: &Text,
    count: usize,
) -> Result<Now, Stop>
    requires room { body.at + 1 < 2 ^ 64 }
    requires owner { (t : Owner (R.linked runtime.now) (R.made runtime.now) objects.now) × All (IsUsable (R.linked runtime.now) (R.made runtime.now) t.serials objects.now) body.operands.items }
    ensures comes { (t : Running) (f : ℕ) (wanted : Kind) → t.frames ≡ frames.old
        → next_of (scene (R.linked runtime.now) (R.known runtime.now) (R.program runtime.now) (R.made runtime.now) objects.now t f) body ≡ Some (ops.Dispatch wanted name.now count)
        → ComesTo (scene (R.linked runtime.now) (R.known runtime.now) (R.program runtime.now) (R.made runtime.now) objects.now t f)
        (scene (R.linked runtime.now) (R.known runtime.now) (R.program runtime.now) (R.made runtime.now) objects.now (record t { frames = frames.new }) f) body result [] }
{
    let at = body.at;
    let (on, args) = take_call(&mut body, count)?;
    let receiver = copy_cell(&on)?;
    let given = name_alone(alloc, name)?;
    let method = dispatch_token(runtime);
    let call = test_offset(runtime, objects, body.place, method, &receiver, given)?;
    let levels = body.levels;
    let dispatch = for_name(&body, at, on, args);
    wait(frames, Waiting::Call(body))?;
    wait(frames, dispatch)?;
    Ok(Now::Calling { levels, call })
}

// What waits for the name of a dispatch at this place of a body's code.
fn for_name(body: &Body, at: usize, on: Cell, args: Vec<Cell>) -> Waiting
    ensures { result ≡ waits.Name body.now.levels body.now.place body.now.code at on args }
{
    Waiting::Name {
        levels: body.levels,
        from: body.place,
        code: body.code,
        at,
        on,
        args,
    }
}

// A name as the only argument.
fn name_alone(alloc: Global, name: &Text) -> Result<Vec<Cell>, NoMemory>
    ensures { IfOk result (λ args. args.items ≡ cells.Str name.now ∷ []) }
{
    let mut args = Vec::new(alloc);
    let name = name.copy(alloc)?;
    args.push(Cell::Str(SharedText::from_text(alloc, name)?))?;
    Ok(args)
}

/// The name comes to the dispatch that asked for it, which calls by it.
pub fn to_name<R: Runtime, L: Ledger>(
    alloc: Global,
    runtime: &R,
    task: &Task,
    objects: &ObjectStore,
    levels: u32,
    from: Place,
    code: usize,
    at: usize,
    on: Cell,
    args: Vec<Cell>,
    value: Cell,
    steps: &mut Steps<L>,
) -> Result<Now, Stop>
    requires { (f : ℕ) × IsMet (scene (R.linked runtime.now) (R.known runtime.now) (R.program runtime.now) (R.made runtime.now) objects.now task.now f) (waits.Name levels from code at on args) value }
    ensures resumes { (f : ℕ) → Resumes (scene (R.linked runtime.now) (R.known runtime.now) (R.program runtime.now) (R.made runtime.now) objects.now task.now f)
        (scene (R.linked runtime.now) (R.known runtime.now) (R.program runtime.now) (R.made runtime.now) objects.now task.now f) (waits.Name levels from code at on args) value result }
    ensures searches { (n : ℕ) → HaveAncestors (R.known runtime.now).classes (R.made runtime.now) n → steps.new ≤ steps.old + n }
{
    let name = text_of(alloc, &value)?;
    let call = test_dispatched(
        runtime,
        objects,
        &task.codes,
        from,
        code,
        at,
        &name,
        &on,
        args,
        steps,
    )?;
    Ok(Now::Calling { levels, call })
}

// The tests of a call by the name of a dispatch at this place of a code.
fn test_dispatched<R: Runtime, L: Ledger>(
    runtime: &R,
    objects: &ObjectStore,
    codes: &Codes,
    from: Place,
    code: usize,
    at: usize,
    name: &Text,
    on: &Cell,
    args: Vec<Cell>,
    steps: &mut Steps<L>,
) -> Result<Call, Stop>
    requires { HaveOwner (R.linked runtime.now) (R.made runtime.now) objects.now on.now args.items }
    ensures passes { (xs : List ℕ) (cs : List (List Instruction)) (h : Heap)
        → Holds (showing (R.linked runtime.now).keys xs) objects.now h → IsSeen (showing (R.linked runtime.now).keys xs) on.now → All (IsSeen (showing (R.linked runtime.now).keys xs)) args.items
        → PassesIn (setting (R.linked runtime.now) xs cs) h from result (λ next. passes_named (R.linked runtime.now).world next (place_shown (setting (R.linked runtime.now) xs cs) from) (manner_of manners.Dispatch)
        (result_wanted (instruction_at (codes_of codes.now) code at)) name.now (shown (showing (R.linked runtime.now).keys xs) on.now) (all_shown (showing (R.linked runtime.now).keys xs) args.items)) }
    ensures usable { (xs : List ℕ) (cs : List (List Instruction)) → IsOwnPlace (setting (R.linked runtime.now) xs cs) objects.now from
        → IsUsable (R.linked runtime.now) (R.made runtime.now) xs objects.now on.now → All (IsUsable (R.linked runtime.now) (R.made runtime.now) xs objects.now) args.items
        → IfOk result (IsUsableCall (setting (R.linked runtime.now) xs cs) (R.made runtime.now) objects.now) }
    ensures live { IfOk result (λ call. IsOnLive objects.now call.me call.parent) }
    ensures searches { (n : ℕ) → HaveAncestors (R.known runtime.now).classes (R.made runtime.now) n → steps.new ≤ steps.old + n }
{
    match wanted_at(codes, code, at) {
        Some(wanted) => test_named(
            runtime,
            objects,
            from,
            Manner::Dispatch,
            wanted,
            name,
            on,
            args,
            steps,
        ),
        None => test_named(
            runtime,
            objects,
            from,
            Manner::Dispatch,
            &ValueType::Void,
            name,
            on,
            args,
            steps,
        ),
    }
}

// The result that a dispatch at this place of a code wants; none where none stands there.
fn wanted_at(codes: &Codes, code: usize, at: usize) -> Option<&ValueType>
    ensures some { IfSome result (λ wanted. result_wanted (instruction_at (codes_of codes.now) code at) ≡ wanted.now) }
    ensures none { IfNone result (result_wanted (instruction_at (codes_of codes.now) code at) ≡ types.Void) }
{
    match codes.instruction(code, at) {
        Some(instruction) => wanted_by(instruction),
        None => None,
    }
}

// The result that a dispatch wants.
fn wanted_by(instruction: &Instruction) -> Option<&ValueType>
    ensures some { IfSome result (λ wanted. result_wanted (Some instruction.now) ≡ wanted.now) }
    ensures none { IfNone result (result_wanted (Some instruction.now) ≡ types.Void) }
{
    match instruction {
        Instruction::Dispatch { result, .. } => Some(result),
        _ => None,
    }
}
