//! What is asked of self's class: name, methods and version.

ghost use Rattle.som_interp_builtins.specs.Answered.{CanAsk, MayAsk};
ghost use Rattle.som_interp_builtins.specs.Arguments.{IsText};
ghost use Rattle.som_interp_state.specs.Asked.{HaveAncestors};
ghost use Rattle.som_model.specs.ClassNames.{class_name};
ghost use Rattle.som_semantics.specs.Invoked.{first_argument, version_fits as fits_version};
ghost use Rattle.som_semantics.specs.State.{Heap};
ghost use Rattle.som_semantics.specs.Values.{text_of as text_in};
ghost use Rattle.som_objects.specs.declared.cell.Cell.{Cell as Argument};
ghost use Rattle.som_values.specs.Shown.{IsNumbered, Showing, all_shown, key_of, shown_ref, showing};
ghost use Rattle.som_values.specs.Stored.{IsClassOf};
ghost use Rattle.std.specs.Option.{is_some};
ghost use Rattle.std.specs.Prelude.{◌≡◌, ◌≤◌, ◌+◌, [], ℕ, IfOk, List, Option, true};

use crate::arguments::first_text;
use som_interp_state::Runtime;
use som_model::{Fault, MAX_TEXT, NoMemory};
use som_objects::{Cell, ObjectStore, SharedText};
use som_tables::{ClassNo, Steps};
use som_trace::name_within;
use som_values::{Reference, Stopped, class_of};
use std::alloc::Global;
use std::sync::ledger::Ledger;

/// The class of self, or the fault Freed.
pub(crate) fn class_of_self<R: Runtime>(
    runtime: &R,
    objects: &ObjectStore,
    me: Reference,
) -> Result<ClassNo, Fault>
    requires { CanAsk (R.linked runtime.now) (R.made runtime.now) objects.now me [] }
    ensures class { (xs : List ℕ) (statics : List (Option (List Argument))) (h : Heap) → MayAsk (R.linked runtime.now) (R.made runtime.now) xs objects.now statics h me []
        → IsClassOf (R.keys runtime.now) (R.world runtime.now) h (shown_ref (showing (R.keys runtime.now) xs) me) result }
    ensures numbered { IfOk result (IsNumbered (R.keys runtime.now)) }
    ensures made { IfOk result (λ class. R.made runtime.now (key_of (R.keys runtime.now) class) ≡ true) }
{
    runtime.know();
    class_of(runtime, objects, me)
}

/// The text of a class's name, or the fault that it is too long.
pub(crate) fn name_of<R: Runtime>(
    alloc: Global,
    runtime: &R,
    class: ClassNo,
) -> Result<Cell, Stopped>
    requires { IsNumbered (R.keys runtime.now) class }
    ensures { IsText (class_name (key_of (R.keys runtime.now) class)) result }
{
    runtime.know();
    match name_within(alloc, runtime, class, MAX_TEXT as usize)? {
        Some(name) => Ok(Cell::Str(SharedText::from_text(alloc, name)?)),
        None => Err(Stopped::Fault(Fault::TextTooLong)),
    }
}

/// Whether a class has a method of the name that is the first argument. No more steps are counted than a class that is
/// made has ancestors.
pub(crate) fn has_method<R: Runtime, L: Ledger>(
    alloc: Global,
    runtime: &R,
    class: ClassNo,
    args: &[Cell],
    steps: &mut Steps<L>,
) -> Result<bool, NoMemory>
    requires numbered { IsNumbered (R.keys runtime.now) class }
    requires made { R.made runtime.now (key_of (R.keys runtime.now) class) ≡ true }
    ensures has { IfOk result (λ has. (s : Showing) → has ≡ is_some ((R.world runtime.now).byname (key_of (R.keys runtime.now) class) (text_in (first_argument (all_shown s args.now))))) }
    ensures cost { (n : ℕ) → HaveAncestors (R.known runtime.now).classes (R.made runtime.now) n → steps.new ≤ steps.old + n }
{
    let name = first_text(alloc, args)?;
    Ok(runtime.find(class, &name, steps).is_some())
}

/// Whether a version is what is asked for, or a later one of the same major version; 0.0 fits each.
pub(crate) fn version_fits(version: (u32, u32), major: i32, minor: i32) -> bool
    ensures { result ≡ fits_version version major minor }
{
    let (first, second) = version;
    if major == 0 && minor == 0 {
        return true;
    }
    i64::from(first) == i64::from(major) && i64::from(minor) <= i64::from(second)
}
