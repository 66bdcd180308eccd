//! `new C`: somNew called on the class object.

ghost use Rattle.som_interp_calls.specs.Calling.{ComesTo};
ghost use Rattle.som_interp_loop.specs.NextInstruction.{IfTold, next_of};
ghost use Rattle.som_code.specs.declared.instruction.Instruction.TheVariants as ops;
ghost use Rattle.som_model.specs.Made.{ComesOf};
ghost use Rattle.som_semantics.specs.State.{Used};
ghost use Rattle.som_model.specs.declared.key.ClassKey.{ClassKey};
ghost use Rattle.som_interp_loop.specs.Scene.{scene};
ghost use Rattle.som_interp_loop.specs.declared.stop.Stop.{Stop as Stopping};
ghost use Rattle.som_interp_loop.specs.declared.stop.Stop.TheVariants as stops;
ghost use Rattle.som_interp_state.specs.Named.{Owner};
ghost use Rattle.som_interp_state.specs.declared.frames.Waiting.TheVariants as waits;
ghost use Rattle.som_interp_state.specs.declared.task.Task.{Task};
ghost use Rattle.som_values.specs.Shown.{IsNumbered, key_of};
ghost use Rattle.std.specs.Prelude.{◌≡◌, ◌⊎◌, ◌<◌, ◌+◌, ◌^◌, ◌∷◌, [], ℕ, OnOk, Some, true};

use crate::calls::wait;
use crate::operands::go_past;
use crate::tested::test_offset;
use som_interp_dispatch::new_token;
use som_interp_loop::Stop;
use som_interp_state::{Body, Frames, Now, Runtime, Waiting};
use som_objects::{Cell, ObjectStore};
use som_tables::ClassNo;
use std::alloc::Global;

/// `new C`: the class is made, and somNew is called on its class object. The body waits for the object, which has to be
/// of the class.
pub fn new_call<R: Runtime>(
    alloc: Global,
    runtime: &mut R,
    objects: &ObjectStore,
    frames: &mut Frames,
    mut body: Body,
    class: ClassNo,
) -> Result<Now, Stop>
    requires room { body.at + 1 < 2 ^ 64 }
    requires class { IsNumbered (R.keys runtime.old) class }
    requires owner { Owner (R.linked runtime.old) (R.made runtime.old) objects.now }
    ensures linked { R.linked runtime.new ≡ R.linked runtime.old }
    ensures known { R.known runtime.new ≡ R.known runtime.old }
    ensures program { R.program runtime.new ≡ R.program runtime.old }
    ensures keeps { (k : ClassKey) → R.made runtime.old k ≡ true → R.made runtime.new k ≡ true }
    ensures made { IfTold result (R.made runtime.new (key_of (R.keys runtime.old) class) ≡ true) }
    ensures only { (k : ClassKey) → R.made runtime.new k ≡ true → (R.made runtime.old k ≡ true) ⊎ ComesOf (R.known runtime.old).classes (key_of (R.keys runtime.old) class ∷ []) k }
    ensures comes { (t : Task) (f : ℕ) → t.frames ≡ frames.old
        → next_of (scene (R.linked runtime.old) (R.known runtime.old) (R.program runtime.old) (R.made runtime.old) objects.now t f) body ≡ Some (ops.New (key_of (R.keys runtime.old) class))
        → ComesTo (scene (R.linked runtime.old) (R.known runtime.old) (R.program runtime.old) (R.made runtime.old) objects.now t f)
        (scene (R.linked runtime.new) (R.known runtime.new) (R.program runtime.new) (R.made runtime.new) objects.now (record t { frames = frames.new }) f) body result (Used (key_of (R.keys runtime.old) class) ∷ []) }
{
    runtime.reach(alloc, class)?;
    runtime.know();
    let method = new_token(runtime);
    let call = test_offset(
        runtime,
        objects,
        body.place,
        method,
        &Cell::Class(class),
        Vec::new(alloc),
    )?;
    let levels = body.levels;
    let object = object_of(&body);
    go_past(&mut body);
    wait(frames, Waiting::Call(body))?;
    wait(frames, object)?;
    Ok(Now::Calling { levels, call })
}

// What waits for the object of a `new` at the body's place.
fn object_of(body: &Body) -> Waiting
    ensures { result ≡ waits.Object body.now.place body.now.code body.now.at }
{
    Waiting::Object {
        from: body.place,
        code: body.code,
        at: body.at,
    }
}
