//! The kernel's bodies that only ask, each answered by its question.

ghost use Rattle.som_interp_builtins.specs.Answered.{CanAsk, IsAnswered, MayAsk};
ghost use Rattle.som_interp_builtins.specs.Kinds.{LooksUpNone, asking_shown};
ghost use Rattle.som_semantics.specs.Invoked.{asks};
ghost use Rattle.som_semantics.specs.State.{Heap};
ghost use Rattle.som_objects.specs.declared.cell.Cell.{Cell as Variable};
ghost use Rattle.som_values.specs.Shown.{all_shown, shown_ref, showing};
ghost use Rattle.som_interp_state.specs.Asked.{HaveAncestors};
ghost use Rattle.std.specs.Prelude.{◌≡◌, ◌≤◌, ◌+◌, ℕ, List, Option};

use crate::Asking;
use crate::questions::{
    check_version, descended_from, dispatch_name, get_class, get_class_name, get_name, is_a,
    is_instance_of, responds_to, supports_method,
};
use som_interp_state::Runtime;
use som_objects::{Cell, ObjectStore};
use som_tables::Steps;
use som_values::{Reference, Stopped};
use std::alloc::Global;
use std::sync::ledger::Ledger;

/// What a body of the kernel's that only asks answers, for self and its arguments. Steps are counted only where a
/// method is looked up by its name, and no more than a class that is made has ancestors.
pub fn ask<R: Runtime, L: Ledger>(
    alloc: Global,
    runtime: &R,
    objects: &ObjectStore,
    asking: Asking,
    me: Reference,
    args: &[Cell],
    steps: &mut Steps<L>,
) -> Result<Cell, Stopped>
    requires { CanAsk (R.linked runtime.now) (R.made runtime.now) objects.now me args.now }
    ensures answered { (xs : List ℕ) (statics : List (Option (List Variable))) (h : Heap) → MayAsk (R.linked runtime.now) (R.made runtime.now) xs objects.now statics h me args.now
        → IsAnswered (R.linked runtime.now) (R.made runtime.now) (R.keys runtime.now) xs objects.now result
        (asks (R.world runtime.now) (asking_shown asking) (shown_ref (showing (R.keys runtime.now) xs) me) (all_shown (showing (R.keys runtime.now) xs) args.now) h) }
    ensures steps { LooksUpNone asking → steps.new ≡ steps.old }
    ensures cost { (n : ℕ) → HaveAncestors (R.known runtime.now).classes (R.made runtime.now) n → steps.new ≤ steps.old + n }
{
    match asking {
        Asking::GetClass => get_class(runtime, objects, me),
        Asking::GetClassName => get_class_name(alloc, runtime, objects, me),
        Asking::IsA => is_a(runtime, objects, me, args),
        Asking::IsInstanceOf => is_instance_of(runtime, objects, me, args),
        Asking::RespondsTo => responds_to(alloc, runtime, objects, me, args, steps),
        Asking::DispatchName => dispatch_name(args),
        Asking::GetName => get_name(alloc, runtime, me),
        Asking::DescendedFrom => descended_from(runtime, objects, me, args),
        Asking::SupportsMethod => supports_method(alloc, runtime, me, args, steps),
        Asking::CheckVersion => check_version(runtime, me, args),
    }
}
