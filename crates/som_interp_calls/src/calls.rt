//! Calls by reference, by name, and of one parent's body.

ghost use Rattle.som_interp_calls.specs.Calling.{ComesTo, HasPushed};
ghost use Rattle.som_interp_loop.specs.NextInstruction.{next_of};
ghost use Rattle.som_code.specs.declared.instruction.Instruction.TheVariants as ops;
ghost use Rattle.som_model.specs.declared.key.MethodRef.{MethodRef};
ghost use Rattle.som_meta.specs.Numbering.{Numbering};
ghost use Rattle.som_semantics.specs.Calls.{class_here, parent_at};
ghost use Rattle.som_model.specs.declared.key.ClassKey.{ClassKey};
ghost use Rattle.som_model.specs.declared.syntax.Block.{Block};
ghost use Rattle.som_interp_loop.specs.Scene.{scene, setting_of};
ghost use Rattle.som_objects.specs.Objects.{Objects};
ghost use Rattle.som_interp_state.specs.Settings.{Linked};
ghost use Rattle.som_interp_state.specs.Standing.{here_shown};
ghost use Rattle.som_values.specs.Shown.{key_of};
ghost use Rattle.som_interp_loop.specs.declared.stop.Stop.{Stop as Stopping};
ghost use Rattle.som_interp_loop.specs.declared.stop.Stop.TheVariants as stops;
ghost use Rattle.som_interp_state.specs.Named.{IsMadeClass, Owner};
ghost use Rattle.som_interp_state.specs.Holding.{IsUsable};
ghost use Rattle.som_interp_state.specs.declared.task.Task.{Task};
ghost use Rattle.std.specs.List.{All};
ghost use Rattle.som_interp_state.specs.Asked.{HaveAncestors};
ghost use Rattle.std.specs.Prelude.{◌≡◌, ◌<◌, ◌+◌, ◌^◌, ◌∷◌, ◌≤◌, [], ℕ, Bool, Err, OnOk, Some, true};

use crate::operands::{take_call, take_parent_call};
use crate::tested::{test_named, test_offset, test_parent};
use som_interp_loop::Stop;
use som_interp_state::{Body, Frames, Now, Runtime, Waiting};
use som_model::{Text, ValueType};
use som_objects::ObjectStore;
use som_tables::{ClassNo, MToken, Steps};
use som_trace::Manner;
use std::sync::ledger::Ledger;

/// A call by reference: the arguments are on top, and below them is the receiver. The body waits for its value.
pub fn offset_call<R: Runtime>(
    runtime: &R,
    objects: &ObjectStore,
    frames: &mut Frames,
    mut body: Body,
    method: MToken,
    count: usize,
) -> Result<Now, Stop>
    requires room { body.at + 1 < 2 ^ 64 }
    requires token { (R.linked runtime.now).is_token method ≡ true }
    requires owner { (t : Owner (R.linked runtime.now) (R.made runtime.now) objects.now) × All (IsUsable (R.linked runtime.now) (R.made runtime.now) t.serials objects.now) body.operands.items }
    ensures comes { (t : Task) (f : ℕ) (r : MethodRef) → t.frames ≡ frames.old → (R.linked runtime.now).world.owner r ≡ (R.linked runtime.now).method method
        → next_of (scene (R.linked runtime.now) (R.known runtime.now) (R.program runtime.now) (R.made runtime.now) objects.now t f) body ≡ Some (ops.OffsetCall r count)
        → ComesTo (scene (R.linked runtime.now) (R.known runtime.now) (R.program runtime.now) (R.made runtime.now) objects.now t f)
        (scene (R.linked runtime.now) (R.known runtime.now) (R.program runtime.now) (R.made runtime.now) objects.now (record t { frames = frames.new }) f) body result [] }
{
    let (on, args) = take_call(&mut body, count)?;
    let call = test_offset(runtime, objects, body.place, method, &on, args)?;
    let levels = body.levels;
    wait(frames, Waiting::Call(body))?;
    Ok(Now::Calling { levels, call })
}

/// A call by name: the arguments are on top, and below them is the receiver. The body waits for its value. No more steps
/// are counted than a class that is made has ancestors.
pub fn named_call<R: Runtime, L: Ledger>(
    runtime: &R,
    objects: &ObjectStore,
    frames: &mut Frames,
    mut body: Body,
    wanted: &ValueType,
    name: &Text,
    count: usize,
    steps: &mut Steps<L>,
) -> Result<Now, Stop>
    requires room { body.at + 1 < 2 ^ 64 }
    requires owner { (t : Owner (R.linked runtime.now) (R.made runtime.now) objects.now) × All (IsUsable (R.linked runtime.now) (R.made runtime.now) t.serials objects.now) body.operands.items }
    ensures comes { (t : Task) (f : ℕ) → t.frames ≡ frames.old
        → next_of (scene (R.linked runtime.now) (R.known runtime.now) (R.program runtime.now) (R.made runtime.now) objects.now t f) body ≡ Some (ops.Lookup wanted.now name.now count)
        → ComesTo (scene (R.linked runtime.now) (R.known runtime.now) (R.program runtime.now) (R.made runtime.now) objects.now t f)
        (scene (R.linked runtime.now) (R.known runtime.now) (R.program runtime.now) (R.made runtime.now) objects.now (record t { frames = frames.new }) f) body result [] }
    ensures searches { (n : ℕ) → HaveAncestors (R.known runtime.now).classes (R.made runtime.now) n → steps.new ≤ steps.old + n }
{
    let (on, args) = take_call(&mut body, count)?;
    let call = test_named(
        runtime,
        objects,
        body.place,
        Manner::Lookup,
        wanted,
        name,
        &on,
        args,
        steps,
    )?;
    let levels = body.levels;
    wait(frames, Waiting::Call(body))?;
    Ok(Now::Calling { levels, call })
}

/// A call of a parent's body, on self. The body waits for its value.
pub fn parent_call(
    frames: &mut Frames,
    mut body: Body,
    parent: ClassNo,
    method: MToken,
    count: usize,
) -> Result<Now, Stop>
    requires { body.at + 1 < 2 ^ 64 }
    ensures comes { (l : Linked) (kn : Numbering) (main : Block) (made : ClassKey → Bool) (os : Objects) (t : Task) (f : ℕ) (r : MethodRef) (p : ℕ) → t.frames ≡ frames.old → l.world.owner r ≡ l.method method → l.is_token method ≡ true
        → IsMadeClass l made parent → key_of l.keys parent ≡ parent_at (l.world.parents (class_here (here_shown (setting_of (scene l kn main made os t f)) body.me body.place))) p
        → next_of (scene l kn main made os t f) body ≡ Some (ops.ParentCall p r count)
        → ComesTo (scene l kn main made os t f) (scene l kn main made os (record t { frames = frames.new }) f) body result [] }
{
    let args = take_parent_call(&mut body, count)?;
    let call = test_parent(body.place, body.me, parent, method, args)?;
    let levels = body.levels;
    wait(frames, Waiting::Call(body))?;
    Ok(Now::Calling { levels, call })
}

/// One more waits, above the others.
pub fn wait(frames: &mut Frames, waiting: Waiting) -> Result<(), Stop>
    ensures items { OnOk result (HasPushed frames.old frames.new (waiting ∷ [])) }
    ensures err { (e : Stopping) → result ≡ Err e → e ≡ stops.NoMemory }
{
    match frames.waiting.push(waiting) {
        Ok(()) => Ok(()),
        Err(_) => Err(Stop::NoMemory),
    }
}
