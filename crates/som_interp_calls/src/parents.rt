//! Calls of all parents' bodies, one parent after the other.

ghost use Rattle.som_interp_calls.specs.Calling.{ComesTo};
ghost use Rattle.som_interp_calls.specs.Parents.{IsFirst, IsNone, Nexts};
ghost use Rattle.som_code.specs.declared.instruction.Instruction.TheVariants as ops;
ghost use Rattle.som_interp_loop.specs.NextInstruction.{next_of};
ghost use Rattle.som_machine_laws.specs.Needs.{PlaceIn};
ghost use Rattle.som_code_cache.specs.Coded.{codes_of};
ghost use Rattle.som_semantics.specs.Calls.{class_here, parent_at as parent_in};
ghost use Rattle.som_model.specs.declared.key.MethodRef.{MethodRef};
ghost use Rattle.som_interp_loop.specs.Scene.{scene};
ghost use Rattle.som_objects.specs.Objects.{Objects};
ghost use Rattle.som_interp_state.specs.Named.{IsMadeClass, setting};
ghost use Rattle.som_interp_state.specs.Own.{IsOwnPlace};
ghost use Rattle.som_interp_state.specs.Settings.{instruction_at, method_named};
ghost use Rattle.som_interp_state.specs.Standing.{here_shown, place_shown};
ghost use Rattle.som_interp_state.specs.declared.frames.Waiting.TheVariants as waits;
ghost use Rattle.som_interp_state.specs.declared.task.Task.{Task};
ghost use Rattle.som_values.specs.Shown.{IsNumbered, key_of};
ghost use Rattle.std.specs.Prelude.{◌≡◌, ◌<◌, ◌+◌, ◌-◌, ◌^◌, [], ℕ, IfOk, IfSome, MatchOption, None, Some, true};

use crate::calls::wait;
use crate::operands::take_parent_call;
use crate::tested::test_parent;
use som_interp_loop::Stop;
use som_interp_state::{Body, Frames, Now, Runtime, Waiting};
use som_model::NoMemory;
use som_objects::Cell;
use som_tables::{ClassNo, MToken};
use som_trace::Place;
use som_values::{Reference, copy_cell};
use std::alloc::Global;

/// The first parent that is left of those whose bodies are called one after the other, is called on self, and the
/// others wait above what waited; where none is left, nil is answered.
pub fn next_call<R: Runtime>(
    alloc: Global,
    runtime: &R,
    frames: &mut Frames,
    levels: u32,
    me: Option<Reference>,
    from: Place,
    parent: usize,
    code: usize,
    at: usize,
    method: MToken,
    args: Vec<Cell>,
) -> Result<Now, Stop>
    requires place { (os : Objects) × IsOwnPlace (setting (R.linked runtime.now) [] []) os from }
    requires token { (R.linked runtime.now).is_token method ≡ true }
    ensures nexts { (os : Objects) (t : Task) (f : ℕ) (r : MethodRef) → t.frames ≡ frames.old → (R.linked runtime.now).world.owner r ≡ (R.linked runtime.now).method method
        → method_named (instruction_at (codes_of t.codes) code at) ≡ r
        → Nexts (scene (R.linked runtime.now) (R.known runtime.now) (R.program runtime.now) (R.made runtime.now) os t f) (scene (R.linked runtime.now) (R.known runtime.now) (R.program runtime.now) (R.made runtime.now) os (record t { frames = frames.new }) f)
        levels me from parent code r args.items result }
{
    runtime.know();
    let class = class_at(runtime, &from);
    let Some(first) = first_parent(runtime, class, method.class(), parent) else {
        return Ok(Now::Answering(Cell::Nil));
    };
    let again = copy_cells(alloc, args.as_slice())?;
    let waiting = for_parent(levels, &me, &from, first.0 + 1, code, at, again);
    let call = test_parent(from, me, first.1, method, args)?;
    wait(frames, waiting)?;
    Ok(Now::Calling { levels, call })
}

/// A call of the bodies of all parents, one after the other, on self. The body waits for nil.
pub fn parents_call<R: Runtime>(
    alloc: Global,
    runtime: &R,
    frames: &mut Frames,
    mut body: Body,
    method: MToken,
    count: usize,
) -> Result<Now, Stop>
    requires room { body.at + 1 < 2 ^ 64 }
    requires place { (os : Objects) × IsOwnPlace (setting (R.linked runtime.now) [] []) os body.place }
    requires token { (R.linked runtime.now).is_token method ≡ true }
    ensures comes { (os : Objects) (t : Task) (f : ℕ) (r : MethodRef) → t.frames ≡ frames.old → (R.linked runtime.now).world.owner r ≡ (R.linked runtime.now).method method
        → next_of (scene (R.linked runtime.now) (R.known runtime.now) (R.program runtime.now) (R.made runtime.now) os t f) body ≡ Some (ops.ParentsCall r count)
        → ComesTo (scene (R.linked runtime.now) (R.known runtime.now) (R.program runtime.now) (R.made runtime.now) os t f) (scene (R.linked runtime.now) (R.known runtime.now) (R.program runtime.now) (R.made runtime.now) os (record t { frames = frames.new }) f) body result [] }
{
    let at = body.at;
    let args = take_parent_call(&mut body, count)?;
    let levels = body.levels;
    let code = body.code;
    let me = self_of(&body);
    let from = place_of(&body);
    wait(frames, Waiting::Call(body))?;
    next_call(
        alloc, runtime, frames, levels, me, from, 0, code, at, method, args,
    )
}

// Where a body runs.
fn place_of(body: &Body) -> Place
    ensures { result ≡ body.now.place }
{
    body.place
}

// Self of a body.
fn self_of(body: &Body) -> Option<Reference>
    ensures { result ≡ body.now.me }
{
    body.me
}

/// The parent at a place of the class that runs in a place; SOMObject where there is none.
pub fn parent_at<R: Runtime>(runtime: &R, from: &Place, parent: u8) -> ClassNo
    requires place { (os : Objects) × IsOwnPlace (setting (R.linked runtime.now) [] []) os from.now }
    requires made { PlaceIn (R.made runtime.now) (place_shown (setting (R.linked runtime.now) [] []) from.now) }
    ensures made { IsMadeClass (R.linked runtime.now) (R.made runtime.now) result }
    ensures key { key_of (R.linked runtime.now).keys result ≡ parent_in ((R.linked runtime.now).world.parents (class_here (here_shown (setting (R.linked runtime.now) [] []) None from.now))) parent }
{
    runtime.know();
    let class = class_at(runtime, from);
    let parents = runtime.parents(class).as_slice();
    let place = usize::from(parent);
    if place < parents.len() {
        parents[place]
    } else {
        ClassNo::new(0)
    }
}

// What waits for the body of a parent: the place of the next one.
fn for_parent(
    levels: u32,
    me: &Option<Reference>,
    from: &Place,
    parent: usize,
    code: usize,
    at: usize,
    args: Vec<Cell>,
) -> Waiting
    ensures { result ≡ waits.Parent levels me.now from.now parent code at args }
{
    Waiting::Parent {
        levels,
        me: *me,
        from: *from,
        parent,
        code,
        at,
        args,
    }
}

// The class whose body runs in a place; that of SOMObject in main.
fn class_at<R: Runtime>(runtime: &R, from: &Place) -> ClassNo
    requires { (os : Objects) × IsOwnPlace (setting (R.linked runtime.now) [] []) os from.now }
    ensures numbered { IsNumbered (R.keys runtime.now) result }
    ensures key { key_of (R.keys runtime.now) result ≡ class_here (here_shown (setting (R.linked runtime.now) [] []) None from.now) }
{
    runtime.know();
    match from {
        Place::Main => ClassNo::new(0),
        Place::Body { class, .. } => *class,
    }
}

// Equal cells.
fn copy_cells(alloc: Global, cells: &[Cell]) -> Result<Vec<Cell>, NoMemory>
    ensures { IfOk result (λ copies. copies.items ≡ cells.now) }
{
    let mut copies = Vec::new(alloc);
    for cell in cells {
        let copy = copy_cell(cell)?;
        copies.push(copy)?;
    }
    Ok(copies)
}

// The first of a class's parents from a place on that descends from an owner, with its place.
fn first_parent<R: Runtime>(
    runtime: &R,
    class: ClassNo,
    owner: ClassNo,
    from: usize,
) -> Option<(usize, ClassNo)>
    requires class { IsNumbered (R.keys runtime.now) class }
    requires owner { IsNumbered (R.keys runtime.now) owner }
    ensures first { MatchOption result (IsNone (R.keys runtime.now) (R.world runtime.now) class owner from) (IsFirst (R.keys runtime.now) (R.world runtime.now) class owner from) }
    ensures place { IfSome result (λ found. found.0 < 2 ^ 64 - 1) }
{
    let parents = runtime.parents(class).as_slice();
    for place in from..parents.len() {
        if runtime.inherits(parents[place], owner) {
            return Some((place, parents[place]));
        }
    }
    None
}
