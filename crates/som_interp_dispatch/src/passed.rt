//! The tests of a call: by reference, by name, or of a parent's method.

ghost use Rattle.som_code.specs.declared.instruction.Instruction.{Instruction};
ghost use Rattle.som_machine_laws.specs.Passed.{passes_named, passes_offset, passes_parent};
ghost use Rattle.som_semantics.specs.State.{Heap};
ghost use Rattle.som_model.specs.declared.key.ClassKey.{ClassKey};
ghost use Rattle.som_model.specs.declared.key.MethodRef.{MethodRef};
ghost use Rattle.som_objects.specs.Objects.{Objects};
ghost use Rattle.som_interp_state.specs.Asked.{HaveAncestors};
ghost use Rattle.som_interp_state.specs.Named.{HaveOwner, IsLive, IsMadeClass, IsOnLive, IsUsableCall, setting};
ghost use Rattle.som_interp_dispatch.specs.Passed.{Passes, method_in, method_shown, named_in, named_shown};
ghost use Rattle.som_interp_state.specs.Holding.{IsUsable, IsUsableMe};
ghost use Rattle.som_interp_state.specs.Own.{IsOwnPlace};
ghost use Rattle.som_interp_state.specs.Settings.{Linked};
ghost use Rattle.som_interp_state.specs.Standing.{here_shown, place_shown};
ghost use Rattle.som_trace.specs.Events.{manner_of};
ghost use Rattle.som_values.specs.Shown.{IsSeen, IsSeenRef, all_shown, cell_of, key_of, shown, shown_ref, showing};
ghost use Rattle.som_values.specs.Stored.{Holds};
ghost use Rattle.std.specs.List.{All};
ghost use Rattle.std.specs.Prelude.{◌≡◌, ◌≤◌, ◌+◌, ℕ, Bool, IfOk, List, true};

use crate::live_class;
use som_interp_state::{Call, Runtime};
use som_model::{Fault, Text, ValueType};
use som_objects::{Cell, ObjectStore};
use som_tables::{ClassNo, MToken, Steps};
use som_trace::{Manner, Place};
use som_values::{Reference, Stopped, receiver, sig_fits};
use std::sync::ledger::Ledger;

/// The tests of a call by reference, by the token of the method that owns the reference: the receiver isn't nil, and
/// its object isn't freed.
pub fn pass_offset<R: Runtime>(
    runtime: &R,
    objects: &ObjectStore,
    from: Place,
    manner: Manner,
    method: MToken,
    on: &Cell,
    args: Vec<Cell>,
) -> Result<Call, Stopped>
    requires { HaveOwner (R.linked runtime.now) (R.made runtime.now) objects.now on.now args.items }
    ensures passes { (xs : List ℕ) (cs : List (List Instruction)) (h : Heap) (r : MethodRef) → (R.linked runtime.now).world.owner r ≡ (R.linked runtime.now).method method
        → Holds (showing (R.linked runtime.now).keys xs) objects.now h → IsSeen (showing (R.linked runtime.now).keys xs) on.now
        → Passes (setting (R.linked runtime.now) xs cs) h from result (λ next. passes_offset (R.linked runtime.now).world next (place_shown (setting (R.linked runtime.now) xs cs) from) (manner_of manner) r
        (shown (showing (R.linked runtime.now).keys xs) on.now) (all_shown (showing (R.linked runtime.now).keys xs) args.items)) }
    ensures usable { (xs : List ℕ) (cs : List (List Instruction)) → IsOwnPlace (setting (R.linked runtime.now) xs cs) objects.now from → (R.linked runtime.now).is_token method ≡ true
        → IsUsable (R.linked runtime.now) (R.made runtime.now) xs objects.now on.now → All (IsUsable (R.linked runtime.now) (R.made runtime.now) xs objects.now) args.items
        → IfOk result (IsUsableCall (setting (R.linked runtime.now) xs cs) (R.made runtime.now) objects.now) }
    ensures live { IfOk result (λ call. IsOnLive objects.now call.me call.parent) }
{
    match receiver(objects, on) {
        Ok(me) => Ok(Call {
            from,
            manner,
            me,
            parent: None,
            method,
            args,
        }),
        Err(fault) => Err(Stopped::Fault(fault)),
    }
}

/// The tests of a call by name: the receiver isn't nil, and its object isn't freed; its class has a method of the
/// name, else the fault is NoMethod; and the arguments and the result that is wanted fit the method's signature, else
/// it is BadArguments. No more steps are counted than a class that is made has ancestors.
pub fn pass_named<R: Runtime, L: Ledger>(
    runtime: &R,
    objects: &ObjectStore,
    from: Place,
    manner: Manner,
    wanted: &ValueType,
    name: &Text,
    on: &Cell,
    args: Vec<Cell>,
    steps: &mut Steps<L>,
) -> Result<Call, Stopped>
    requires { HaveOwner (R.linked runtime.now) (R.made runtime.now) objects.now on.now args.items }
    ensures passes { (xs : List ℕ) (cs : List (List Instruction)) (h : Heap)
        → Holds (showing (R.linked runtime.now).keys xs) objects.now h → IsSeen (showing (R.linked runtime.now).keys xs) on.now → All (IsSeen (showing (R.linked runtime.now).keys xs)) args.items
        → Passes (setting (R.linked runtime.now) xs cs) h from result (λ next. passes_named (R.linked runtime.now).world next (place_shown (setting (R.linked runtime.now) xs cs) from) (manner_of manner) wanted.now name.now
        (shown (showing (R.linked runtime.now).keys xs) on.now) (all_shown (showing (R.linked runtime.now).keys xs) args.items)) }
    ensures usable { (xs : List ℕ) (cs : List (List Instruction)) → IsOwnPlace (setting (R.linked runtime.now) xs cs) objects.now from
        → IsUsable (R.linked runtime.now) (R.made runtime.now) xs objects.now on.now → All (IsUsable (R.linked runtime.now) (R.made runtime.now) xs objects.now) args.items
        → IfOk result (IsUsableCall (setting (R.linked runtime.now) xs cs) (R.made runtime.now) objects.now) }
    ensures live { IfOk result (λ call. IsOnLive objects.now call.me call.parent) }
    ensures cost { (n : ℕ) → HaveAncestors (R.known runtime.now).classes (R.made runtime.now) n → steps.new ≤ steps.old + n }
{
    match named(runtime, objects, wanted, name, on, args.as_slice(), steps) {
        Ok((me, method)) => Ok(Call {
            from,
            manner,
            me,
            parent: None,
            method,
            args,
        }),
        Err(fault) => Err(Stopped::Fault(fault)),
    }
}

// The receiver and the method of a call by name, where it passes its tests.
fn named<R: Runtime, L: Ledger>(
    runtime: &R,
    objects: &ObjectStore,
    wanted: &ValueType,
    name: &Text,
    on: &Cell,
    args: &[Cell],
    steps: &mut Steps<L>,
) -> Result<(Reference, MToken), Fault>
    requires { HaveOwner (R.linked runtime.now) (R.made runtime.now) objects.now on.now args.now }
    ensures means { (xs : List ℕ) (h : Heap) → Holds (showing (R.linked runtime.now).keys xs) objects.now h → IsSeen (showing (R.linked runtime.now).keys xs) on.now → All (IsSeen (showing (R.linked runtime.now).keys xs)) args.now
        → named_in (R.linked runtime.now).world h wanted.now name.now (shown (showing (R.linked runtime.now).keys xs) on.now) (all_shown (showing (R.linked runtime.now).keys xs) args.now) ≡ named_shown (R.linked runtime.now) xs result }
    ensures held { IfOk result (λ r. on.now ≡ cell_of r.0) }
    ensures live { IfOk result (λ r. IsLive objects.now r.0) }
    ensures token { IfOk result (λ r. (R.linked runtime.now).is_token r.1 ≡ true) }
    ensures cost { (n : ℕ) → HaveAncestors (R.known runtime.now).classes (R.made runtime.now) n → steps.new ≤ steps.old + n }
{
    let me = receiver(objects, on)?;
    let method = method_of(runtime, objects, &me, wanted, name, args, steps)?;
    Ok((me, method))
}

// The method of a call by name on an object that isn't freed.
fn method_of<R: Runtime, L: Ledger>(
    runtime: &R,
    objects: &ObjectStore,
    me: &Reference,
    wanted: &ValueType,
    name: &Text,
    args: &[Cell],
    steps: &mut Steps<L>,
) -> Result<MToken, Fault>
    requires live { IsLive objects.now me.now }
    requires owner { HaveOwner (R.linked runtime.now) (R.made runtime.now) objects.now (cell_of me.now) args.now }
    ensures means { (xs : List ℕ) (h : Heap) → Holds (showing (R.linked runtime.now).keys xs) objects.now h → IsSeenRef (showing (R.linked runtime.now).keys xs) me.now → All (IsSeen (showing (R.linked runtime.now).keys xs)) args.now
        → method_in (R.linked runtime.now).world h wanted.now name.now (shown_ref (showing (R.linked runtime.now).keys xs) me.now) (all_shown (showing (R.linked runtime.now).keys xs) args.now) ≡ method_shown (R.linked runtime.now) result }
    ensures token { IfOk result (λ t. (R.linked runtime.now).is_token t ≡ true) }
    ensures cost { (n : ℕ) → HaveAncestors (R.known runtime.now).classes (R.made runtime.now) n → steps.new ≤ steps.old + n }
{
    runtime.know();
    let class = live_class(runtime, objects, *me);
    let Some(method) = runtime.find(class, name, steps) else {
        return Err(Fault::NoMethod);
    };
    sig_fits(runtime, objects, runtime.signature(method), wanted, args)?;
    Ok(method)
}

/// The test of a parent call: in a body of a class there is a self. Whether it is freed isn't looked at.
pub fn pass_parent(
    from: Place,
    me: Option<Reference>,
    parent: ClassNo,
    method: MToken,
    args: Vec<Cell>,
) -> Result<Call, Stopped>
    ensures passes { (l : Linked) (xs : List ℕ) (cs : List (List Instruction)) (h : Heap) (r : MethodRef) → l.world.owner r ≡ l.method method
        → Passes (setting l xs cs) h from result (λ next. passes_parent l.world next (here_shown (setting l xs cs) me from) (key_of l.keys parent) r (all_shown (showing l.keys xs) args.items)) }
    ensures usable { (l : Linked) (made : ClassKey → Bool) (xs : List ℕ) (cs : List (List Instruction)) (os : Objects) → IsOwnPlace (setting l xs cs) os from → IsMadeClass l made parent → l.is_token method ≡ true
        → IsUsableMe l made xs os me → All (IsUsable l made xs os) args.items → IfOk result (IsUsableCall (setting l xs cs) made os) }
    ensures live { (os : Objects) → IfOk result (λ call. IsOnLive os call.me call.parent) }
{
    match me {
        Some(me) => Ok(Call {
            from,
            manner: Manner::Parent,
            me,
            parent: Some(parent),
            method,
            args,
        }),
        None => Err(Stopped::Fault(Fault::Nil)),
    }
}
