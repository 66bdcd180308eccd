//! The instruction that makes a class and pushes its class object.

ghost use Rattle.som_code.specs.declared.instruction.Instruction.TheVariants as ops;
ghost use Rattle.som_model.specs.Made.{ComesOf};
ghost use Rattle.som_semantics.specs.State.{Used};
ghost use Rattle.som_model.specs.declared.key.ClassKey.{ClassKey as Key};
ghost use Rattle.som_interp_loop.specs.Scene.{scene};
ghost use Rattle.som_interp_loop.specs.declared.stop.Stop.{Stop as Stopped};
ghost use Rattle.som_interp_loop.specs.declared.stop.Stop.TheVariants as stops;
ghost use Rattle.som_interp_loop.specs.NextInstruction.{next_of};
ghost use Rattle.som_interp_body.specs.Obeying.{ComesTo, following};
ghost use Rattle.som_objects.specs.Objects.{Objects};
ghost use Rattle.som_interp_state.specs.declared.task.Task.{Task};
ghost use Rattle.som_values.specs.Shown.{IsKey};
ghost use Rattle.std.specs.Prelude.{◌≡◌, ◌⊎◌, ◌<◌, ◌+◌, ◌^◌, ◌∷◌, [], ℕ, Err, OnOk, Some, true};

use crate::outcome::Outcome;
use som_interp_loop::Stop;
use som_interp_ops::push;
use som_interp_state::{Body, Runtime};
use som_model::ClassKey;
use som_objects::Cell;
use std::alloc::Global;

/// `class C`: the class is made, and its class object comes to the top.
pub(crate) fn class_object<R: Runtime>(
    alloc: Global,
    runtime: &mut R,
    class: &ClassKey,
    body: &mut Body,
) -> Result<Outcome, Stop>
    requires room { body.old.at + 1 < 2 ^ 64 }
    requires key { IsKey (R.keys runtime.old) class.now }
    ensures linked { R.linked runtime.new ≡ R.linked runtime.old }
    ensures known { R.known runtime.new ≡ R.known runtime.old }
    ensures program { R.program runtime.new ≡ R.program runtime.old }
    ensures keeps { (k : Key) → R.made runtime.old k ≡ true → R.made runtime.new k ≡ true }
    ensures wants { (e : Stopped) → result ≡ Err e → e ≡ stops.NoMemory }
    ensures made { OnOk result (R.made runtime.new class.now ≡ true) }
    ensures only { (k : Key) → R.made runtime.new k ≡ true → (R.made runtime.old k ≡ true) ⊎ ComesOf (R.known runtime.old).classes (class.now ∷ []) k }
    ensures comes { (os : Objects) (t : Task) (f : ℕ) → next_of (scene (R.linked runtime.old) (R.known runtime.old) (R.program runtime.old) (R.made runtime.old) os t f) body.old ≡ Some (ops.Class class.now)
        → ComesTo (scene (R.linked runtime.old) (R.known runtime.old) (R.program runtime.old) (R.made runtime.old) os t f) (scene (R.linked runtime.new) (R.known runtime.new) (R.program runtime.new) (R.made runtime.new) os t f)
        body.old (following result body.new) (Used class.now ∷ []) }
{
    let number = runtime.number_of(class);
    runtime.reach(alloc, number)?;
    runtime.know();
    push(&mut body.operands, Cell::Class(number))?;
    body.at += 1;
    Ok(Outcome::GoesOn)
}
