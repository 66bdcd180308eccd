//! The instruction that makes a proxy of the top.

ghost use Rattle.som_code.specs.declared.instruction.Instruction.TheVariants as ops;
ghost use Rattle.som_interp_ops.specs.Cells.{top_cell};
ghost use Rattle.som_semantics.specs.State.{Heap, Ref, receiver as receiver_in};
ghost use Rattle.som_model.specs.declared.key.ClassKey.TheVariants as made_of;
ghost use Rattle.som_model.specs.declared.key.ClassKey.{ClassKey};
ghost use Rattle.som_machine_laws.specs.Frames.{Waiting};
ghost use Rattle.som_interp_loop.specs.Moving.{Keeps};
ghost use Rattle.som_interp_loop.specs.Scene.{scene, setting_of};
ghost use Rattle.som_interp_loop.specs.declared.stop.Stop.TheVariants as stops;
ghost use Rattle.som_interp_loop.specs.NextInstruction.{Runs, next_of};
ghost use Rattle.som_interp_body.specs.Obeying.{IsRunning, Obeyed, TestedTo, following};
ghost use Rattle.som_interp_state.specs.Settings.{shows};
ghost use Rattle.som_values.specs.Shown.{IsNumbered, IsSeen, Showing, key_of, shown};
ghost use Rattle.som_values.specs.Stored.{Holds, IsKept};
ghost use Rattle.std.specs.Prelude.{◌≡◌, ◌≢◌, ◌<◌, ◌+◌, ◌^◌, ℕ, Err, List as Seq, Ok, Option, Some};

use crate::outcome::Outcome;
use som_interp_loop::Stop;
use som_interp_objects::make;
use som_interp_ops::{pop, push};
use som_interp_state::{Body, Runtime, Task};
use som_model::Fault;
use som_objects::{Cell, ObjectStore};
use som_tables::ClassNo;
use som_values::receiver;
use std::alloc::Global;

/// Whether the top can be called: it isn't nil, and not freed.
pub(crate) fn callable(objects: &ObjectStore, operands: &Vec<Cell>) -> Result<(), Fault>
    requires { IsKept objects.now (top_cell operands.now.items) }
    ensures { (s : Showing) (h : Heap) → Holds s objects.now h → IsSeen s (top_cell operands.now.items) → TestedTo result (receiver_in h (shown s (top_cell operands.now.items))) }
{
    match operands.last() {
        Some(cell) => match receiver(objects, cell) {
            Ok(_) => Ok(()),
            Err(fault) => Err(fault),
        },
        None => Err(Fault::Nil),
    }
}

/// A proxy of the top comes to its place, of the class of this number: the target is tested, a unit is taken, the
/// class is made, and then the proxy.
pub(crate) fn proxy<R: Runtime>(
    alloc: Global,
    runtime: &mut R,
    task: &mut Task,
    objects: &mut ObjectStore,
    class: ClassNo,
    fuel: &mut u32,
    body: &mut Body,
) -> Result<Outcome, Stop>
    requires room { body.old.at + 1 < 2 ^ 64 }
    requires running { IsRunning (scene (R.linked runtime.old) (R.known runtime.old) (R.program runtime.old) (R.made runtime.old) objects.old task.old fuel.old) body.old }
    requires class { IsNumbered (R.keys runtime.old) class }
    requires is { (k : ClassKey) × (key_of (R.keys runtime.old) class ≡ made_of.Proxy k) × (next_of (scene (R.linked runtime.old) (R.known runtime.old) (R.program runtime.old) (R.made runtime.old) objects.old task.old fuel.old) body.old ≡ Some (ops.Proxy k)) }
    ensures sound { result ≢ Err stops.SinkFailed }
    ensures obeyed { (prefix : Seq ℕ) (w : Option (Seq ℕ)) → Obeyed prefix w w (scene (R.linked runtime.old) (R.known runtime.old) (R.program runtime.old) (R.made runtime.old) objects.old task.old fuel.old)
        (scene (R.linked runtime.new) (R.known runtime.new) (R.program runtime.new) (R.made runtime.new) objects.new task.new fuel.new) body.old (following result body.new) }
    ensures keeps { Keeps (scene (R.linked runtime.old) (R.known runtime.old) (R.program runtime.old) (R.made runtime.old) objects.old task.old fuel.old)
        (scene (R.linked runtime.new) (R.known runtime.new) (R.program runtime.new) (R.made runtime.new) objects.new task.new fuel.new) }
{
    match callable(objects, &body.operands) {
        Err(fault) => Err(Stop::Fault {
            fault,
            at: body.place,
        }),
        Ok(()) => {
            if *fuel == 0 {
                Err(Stop::Spent)
            } else {
                build(alloc, runtime, task, objects, class, fuel, body)
            }
        },
    }
}

// Makes the proxy, where the target passed its test and a unit is left.
fn build<R: Runtime>(
    alloc: Global,
    runtime: &mut R,
    task: &mut Task,
    objects: &mut ObjectStore,
    class: ClassNo,
    fuel: &mut u32,
    body: &mut Body,
) -> Result<Outcome, Stop>
    requires room { body.old.at + 1 < 2 ^ 64 }
    requires running { IsRunning (scene (R.linked runtime.old) (R.known runtime.old) (R.program runtime.old) (R.made runtime.old) objects.old task.old fuel.old) body.old }
    requires class { IsNumbered (R.keys runtime.old) class }
    requires is { (k : ClassKey) × (key_of (R.keys runtime.old) class ≡ made_of.Proxy k) × (next_of (scene (R.linked runtime.old) (R.known runtime.old) (R.program runtime.old) (R.made runtime.old) objects.old task.old fuel.old) body.old ≡ Some (ops.Proxy k)) }
    requires unit { 0 < fuel.old }
    requires callable { (h : Heap) (ws : Seq Waiting) → Runs (scene (R.linked runtime.old) (R.known runtime.old) (R.program runtime.old) (R.made runtime.old) objects.old task.old fuel.old) body.old h ws
        → (r : Ref) × (receiver_in h (shown (shows (setting_of (scene (R.linked runtime.old) (R.known runtime.old) (R.program runtime.old) (R.made runtime.old) objects.old task.old fuel.old))) (top_cell body.old.operands.items)) ≡ Ok r) }
    ensures sound { result ≢ Err stops.SinkFailed }
    ensures obeyed { (prefix : Seq ℕ) (w : Option (Seq ℕ)) → Obeyed prefix w w (scene (R.linked runtime.old) (R.known runtime.old) (R.program runtime.old) (R.made runtime.old) objects.old task.old fuel.old)
        (scene (R.linked runtime.new) (R.known runtime.new) (R.program runtime.new) (R.made runtime.new) objects.new task.new fuel.new) body.old (following result body.new) }
    ensures keeps { Keeps (scene (R.linked runtime.old) (R.known runtime.old) (R.program runtime.old) (R.made runtime.old) objects.old task.old fuel.old)
        (scene (R.linked runtime.new) (R.known runtime.new) (R.program runtime.new) (R.made runtime.new) objects.new task.new fuel.new) }
{
    runtime.reach(alloc, class)?;
    runtime.know();
    let target = pop(&mut body.operands);
    let object = make(alloc, runtime, objects, &mut task.serials, class, target)?;
    push(&mut body.operands, Cell::Object(object))?;
    *fuel -= 1;
    body.at += 1;
    Ok(Outcome::GoesOn)
}
