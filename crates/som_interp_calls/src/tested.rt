//! The tests of calls, with their faults in the caller's place.

ghost use Rattle.som_interp_calls.specs.Calling.{PassesIn};
ghost use Rattle.som_interp_loop.specs.NextInstruction.{stop_at};
ghost use Rattle.som_code.specs.declared.instruction.Instruction.{Instruction};
ghost use Rattle.som_machine_laws.specs.Passed.{passes_named, passes_offset, passes_parent};
ghost use Rattle.som_semantics.specs.State.{Heap};
ghost use Rattle.som_model.specs.declared.key.ClassKey.{ClassKey};
ghost use Rattle.som_model.specs.declared.key.MethodRef.{MethodRef};
ghost use Rattle.som_objects.specs.Objects.{Objects};
ghost use Rattle.som_interp_state.specs.Named.{HaveOwner, IsMadeClass, IsOnLive, IsUsableCall, setting};
ghost use Rattle.som_interp_state.specs.Holding.{IsUsable, IsUsableMe};
ghost use Rattle.som_interp_state.specs.Own.{IsOwnPlace};
ghost use Rattle.som_interp_state.specs.Settings.{Linked};
ghost use Rattle.som_interp_state.specs.Standing.{here_shown, place_shown};
ghost use Rattle.som_trace.specs.Events.{manner_of};
ghost use Rattle.som_trace.specs.declared.manner.Manner.TheVariants as manners;
ghost use Rattle.som_values.specs.Shown.{IsSeen, all_shown, key_of, shown, showing};
ghost use Rattle.som_values.specs.Stored.{Holds};
ghost use Rattle.std.specs.List.{All};
ghost use Rattle.som_interp_state.specs.Asked.{HaveAncestors};
ghost use Rattle.std.specs.Prelude.{◌≡◌, ◌≤◌, ◌+◌, ℕ, Bool, IfOk, List, true};

use som_interp_dispatch::{pass_named, pass_offset, pass_parent};
use som_interp_loop::Stop;
use som_interp_state::{Call, Runtime};
use som_model::{Text, ValueType};
use som_objects::{Cell, ObjectStore};
use som_tables::{ClassNo, MToken, Steps};
use som_trace::{Manner, Place};
use som_values::{Reference, Stopped};
use std::sync::ledger::Ledger;

/// The tests of a call by reference, in this place.
pub(crate) fn test_offset<R: Runtime>(
    runtime: &R,
    objects: &ObjectStore,
    from: Place,
    method: MToken,
    on: &Cell,
    args: Vec<Cell>,
) -> Result<Call, Stop>
    requires { HaveOwner (R.linked runtime.now) (R.made runtime.now) objects.now on.now args.items }
    ensures passes { (xs : List ℕ) (cs : List (List Instruction)) (h : Heap) (r : MethodRef) → (R.linked runtime.now).world.owner r ≡ (R.linked runtime.now).method method
        → Holds (showing (R.linked runtime.now).keys xs) objects.now h → IsSeen (showing (R.linked runtime.now).keys xs) on.now
        → PassesIn (setting (R.linked runtime.now) xs cs) h from result (λ next. passes_offset (R.linked runtime.now).world next (place_shown (setting (R.linked runtime.now) xs cs) from) (manner_of manners.Offset) r
        (shown (showing (R.linked runtime.now).keys xs) on.now) (all_shown (showing (R.linked runtime.now).keys xs) args.items)) }
    ensures usable { (xs : List ℕ) (cs : List (List Instruction)) → IsOwnPlace (setting (R.linked runtime.now) xs cs) objects.now from → (R.linked runtime.now).is_token method ≡ true
        → IsUsable (R.linked runtime.now) (R.made runtime.now) xs objects.now on.now → All (IsUsable (R.linked runtime.now) (R.made runtime.now) xs objects.now) args.items
        → IfOk result (IsUsableCall (setting (R.linked runtime.now) xs cs) (R.made runtime.now) objects.now) }
    ensures live { IfOk result (λ call. IsOnLive objects.now call.me call.parent) }
{
    let at = from;
    match pass_offset(runtime, objects, from, Manner::Offset, method, on, args) {
        Ok(call) => Ok(call),
        Err(stopped) => Err(stop(at, stopped)),
    }
}

/// The tests of a call by name, in this place. No more steps are counted than a class that is made has ancestors.
pub(crate) fn test_named<R: Runtime, L: Ledger>(
    runtime: &R,
    objects: &ObjectStore,
    from: Place,
    manner: Manner,
    wanted: &ValueType,
    name: &Text,
    on: &Cell,
    args: Vec<Cell>,
    steps: &mut Steps<L>,
) -> Result<Call, Stop>
    requires { HaveOwner (R.linked runtime.now) (R.made runtime.now) objects.now on.now args.items }
    ensures passes { (xs : List ℕ) (cs : List (List Instruction)) (h : Heap)
        → Holds (showing (R.linked runtime.now).keys xs) objects.now h → IsSeen (showing (R.linked runtime.now).keys xs) on.now → All (IsSeen (showing (R.linked runtime.now).keys xs)) args.items
        → PassesIn (setting (R.linked runtime.now) xs cs) h from result (λ next. passes_named (R.linked runtime.now).world next (place_shown (setting (R.linked runtime.now) xs cs) from) (manner_of manner) wanted.now name.now
        (shown (showing (R.linked runtime.now).keys xs) on.now) (all_shown (showing (R.linked runtime.now).keys xs) args.items)) }
    ensures usable { (xs : List ℕ) (cs : List (List Instruction)) → IsOwnPlace (setting (R.linked runtime.now) xs cs) objects.now from
        → IsUsable (R.linked runtime.now) (R.made runtime.now) xs objects.now on.now → All (IsUsable (R.linked runtime.now) (R.made runtime.now) xs objects.now) args.items
        → IfOk result (IsUsableCall (setting (R.linked runtime.now) xs cs) (R.made runtime.now) objects.now) }
    ensures live { IfOk result (λ call. IsOnLive objects.now call.me call.parent) }
    ensures searches { (n : ℕ) → HaveAncestors (R.known runtime.now).classes (R.made runtime.now) n → steps.new ≤ steps.old + n }
{
    let at = from;
    match pass_named(
        runtime, objects, from, manner, wanted, name, on, args, steps,
    ) {
        Ok(call) => Ok(call),
        Err(stopped) => Err(stop(at, stopped)),
    }
}

/// The test of a parent call, in this place.
pub(crate) fn test_parent(
    from: Place,
    me: Option<Reference>,
    parent: ClassNo,
    method: MToken,
    args: Vec<Cell>,
) -> Result<Call, Stop>
    ensures passes { (l : Linked) (xs : List ℕ) (cs : List (List Instruction)) (h : Heap) (r : MethodRef) → l.world.owner r ≡ l.method method
        → PassesIn (setting l xs cs) h from result (λ next. passes_parent l.world next (here_shown (setting l xs cs) me from) (key_of l.keys parent) r (all_shown (showing l.keys xs) args.items)) }
    ensures usable { (l : Linked) (made : ClassKey → Bool) (xs : List ℕ) (cs : List (List Instruction)) (os : Objects) → IsOwnPlace (setting l xs cs) os from → IsMadeClass l made parent → l.is_token method ≡ true
        → IsUsableMe l made xs os me → All (IsUsable l made xs os) args.items → IfOk result (IsUsableCall (setting l xs cs) made os) }
    ensures live { (os : Objects) → IfOk result (λ call. IsOnLive os call.me call.parent) }
{
    let at = from;
    match pass_parent(from, me, parent, method, args) {
        Ok(call) => Ok(call),
        Err(stopped) => Err(stop(at, stopped)),
    }
}

/// Why a task stops, where a value isn't answered in this place.
pub(crate) fn stop(at: Place, stopped: Stopped) -> Stop
    ensures { result ≡ stop_at at stopped }
{
    match stopped {
        Stopped::Fault(fault) => Stop::Fault { fault, at },
        Stopped::NoMemory => Stop::NoMemory,
    }
}
