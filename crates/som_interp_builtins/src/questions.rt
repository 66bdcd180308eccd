//! The answers of the kernel's methods on classes, names, methods and versions, one by one.

ghost use Rattle.som_interp_builtins.specs.Answered.{AnswersTo, CanAsk, IsAsked};
ghost use Rattle.som_semantics.specs.Invoked as questions;
ghost use Rattle.som_semantics.specs.World.{World};
ghost use Rattle.som_model.specs.declared.key.ClassKey.{ClassKey as Key};
ghost use Rattle.som_objects.specs.Objects.{Objects};
ghost use Rattle.som_objects.specs.declared.cell.Cell.{Cell as Argument};
ghost use Rattle.som_values.specs.declared.reference.Reference.{Reference as To};
ghost use Rattle.som_interp_state.specs.Asked.{HaveAncestors};
ghost use Rattle.som_interp_state.specs.Settings.{Linked};
ghost use Rattle.std.specs.Prelude.{◌≤◌, ◌+◌, [], ℕ, Bool, List};

use crate::arguments::{class_argument, class_in, first_number, further};
use crate::selves::{class_of_self, has_method, name_of, version_fits};
use som_interp_state::Runtime;
use som_objects::{Cell, ObjectStore};
use som_tables::Steps;
use som_values::{Reference, Stopped, copy_cell};
use std::alloc::Global;
use std::sync::ledger::Ledger;

/// somGetClass: the class object of self's class.
pub(crate) fn get_class<R: Runtime>(
    runtime: &R,
    objects: &ObjectStore,
    me: Reference,
) -> Result<Cell, Stopped>
    requires { CanAsk (R.linked runtime.now) (R.made runtime.now) objects.now me [] }
    ensures { (args : List Argument) → AnswersTo (R.linked runtime.now) (R.made runtime.now) (R.keys runtime.now) (R.world runtime.now) objects.now me args questions.GetClass result }
{
    runtime.know();
    let class = class_of_self(runtime, objects, me)?;
    Ok(Cell::Class(class))
}

/// somGetClassName: the name of self's class.
pub(crate) fn get_class_name<R: Runtime>(
    alloc: Global,
    runtime: &R,
    objects: &ObjectStore,
    me: Reference,
) -> Result<Cell, Stopped>
    requires { CanAsk (R.linked runtime.now) (R.made runtime.now) objects.now me [] }
    ensures { (args : List Argument) → AnswersTo (R.linked runtime.now) (R.made runtime.now) (R.keys runtime.now) (R.world runtime.now) objects.now me args questions.GetClassName result }
{
    let class = class_of_self(runtime, objects, me)?;
    name_of(alloc, runtime, class)
}

/// somIsA: whether self's class is that of the first argument or descends from it.
pub(crate) fn is_a<R: Runtime>(
    runtime: &R,
    objects: &ObjectStore,
    me: Reference,
    args: &[Cell],
) -> Result<Cell, Stopped>
    requires { CanAsk (R.linked runtime.now) (R.made runtime.now) objects.now me args.now }
    ensures { AnswersTo (R.linked runtime.now) (R.made runtime.now) (R.keys runtime.now) (R.world runtime.now) objects.now me args.now questions.IsA result }
{
    runtime.know();
    let class = class_of_self(runtime, objects, me)?;
    let ancestor = class_argument(objects, args)?;
    let is = runtime.inherits(class, ancestor);
    Ok(Cell::Boolean(is))
}

/// somIsInstanceOf: whether self's class is that of the first argument.
pub(crate) fn is_instance_of<R: Runtime>(
    runtime: &R,
    objects: &ObjectStore,
    me: Reference,
    args: &[Cell],
) -> Result<Cell, Stopped>
    requires { CanAsk (R.linked runtime.now) (R.made runtime.now) objects.now me args.now }
    ensures { AnswersTo (R.linked runtime.now) (R.made runtime.now) (R.keys runtime.now) (R.world runtime.now) objects.now me args.now questions.IsInstanceOf result }
{
    runtime.know();
    let class = class_of_self(runtime, objects, me)?;
    let other = class_argument(objects, args)?;
    Ok(Cell::Boolean(class == other))
}

/// somRespondsTo: whether self's class has a method of the name.
pub(crate) fn responds_to<R: Runtime, L: Ledger>(
    alloc: Global,
    runtime: &R,
    objects: &ObjectStore,
    me: Reference,
    args: &[Cell],
    steps: &mut Steps<L>,
) -> Result<Cell, Stopped>
    requires { CanAsk (R.linked runtime.now) (R.made runtime.now) objects.now me [] }
    ensures answers { AnswersTo (R.linked runtime.now) (R.made runtime.now) (R.keys runtime.now) (R.world runtime.now) objects.now me args.now questions.RespondsTo result }
    ensures cost { (n : ℕ) → HaveAncestors (R.known runtime.now).classes (R.made runtime.now) n → steps.new ≤ steps.old + n }
{
    runtime.know();
    let class = class_of_self(runtime, objects, me)?;
    let responds = has_method(alloc, runtime, class, args, steps)?;
    Ok(Cell::Boolean(responds))
}

/// somDispatchName: the name that was given.
pub(crate) fn dispatch_name(args: &[Cell]) -> Result<Cell, Stopped>
    ensures { (l : Linked) (made : Key → Bool) (keys : List Key) (w : World) (os : Objects) (me : To) → AnswersTo l made keys w os me args.now questions.DispatchName result }
{
    match args.first() {
        Some(cell) => Ok(copy_cell(cell)?),
        None => Ok(Cell::Nil),
    }
}

/// somGetName: the name of the class whose class object self is.
pub(crate) fn get_name<R: Runtime>(
    alloc: Global,
    runtime: &R,
    me: Reference,
) -> Result<Cell, Stopped>
    requires { IsAsked (R.linked runtime.now) (R.made runtime.now) me }
    ensures { (os : Objects) (args : List Argument) → AnswersTo (R.linked runtime.now) (R.made runtime.now) (R.keys runtime.now) (R.world runtime.now) os me args questions.GetName result }
{
    runtime.know();
    let class = class_in(me)?;
    name_of(alloc, runtime, class)
}

/// somDescendedFrom: whether the class whose class object self is is that of the first argument or descends from it.
pub(crate) fn descended_from<R: Runtime>(
    runtime: &R,
    objects: &ObjectStore,
    me: Reference,
    args: &[Cell],
) -> Result<Cell, Stopped>
    requires { CanAsk (R.linked runtime.now) (R.made runtime.now) objects.now me args.now }
    ensures { AnswersTo (R.linked runtime.now) (R.made runtime.now) (R.keys runtime.now) (R.world runtime.now) objects.now me args.now questions.DescendedFrom result }
{
    runtime.know();
    let class = class_in(me)?;
    let ancestor = class_argument(objects, args)?;
    Ok(Cell::Boolean(runtime.inherits(class, ancestor)))
}

/// somSupportsMethod: whether the class whose class object self is has a method of the name.
pub(crate) fn supports_method<R: Runtime, L: Ledger>(
    alloc: Global,
    runtime: &R,
    me: Reference,
    args: &[Cell],
    steps: &mut Steps<L>,
) -> Result<Cell, Stopped>
    requires { IsAsked (R.linked runtime.now) (R.made runtime.now) me }
    ensures answers { (os : Objects) → AnswersTo (R.linked runtime.now) (R.made runtime.now) (R.keys runtime.now) (R.world runtime.now) os me args.now questions.SupportsMethod result }
    ensures cost { (n : ℕ) → HaveAncestors (R.known runtime.now).classes (R.made runtime.now) n → steps.new ≤ steps.old + n }
{
    runtime.know();
    let class = class_in(me)?;
    let supports = has_method(alloc, runtime, class, args, steps)?;
    Ok(Cell::Boolean(supports))
}

/// somCheckVersion: whether the version of the class whose class object self is fits.
pub(crate) fn check_version<R: Runtime>(
    runtime: &R,
    me: Reference,
    args: &[Cell],
) -> Result<Cell, Stopped>
    requires { IsAsked (R.linked runtime.now) (R.made runtime.now) me }
    ensures { (os : Objects) → AnswersTo (R.linked runtime.now) (R.made runtime.now) (R.keys runtime.now) (R.world runtime.now) os me args.now questions.CheckVersion result }
{
    runtime.know();
    let class = class_in(me)?;
    let version = runtime.version(class);
    let major = first_number(args);
    let minor = first_number(further(args));
    Ok(Cell::Boolean(version_fits(version, major, minor)))
}
