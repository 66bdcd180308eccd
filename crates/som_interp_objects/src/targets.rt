//! The target that a proxy stands for.

ghost use Rattle.som_interp_objects.specs.Making.{IsInUse};
ghost use Rattle.som_interp_objects.specs.Targets.{HasTarget, IsTarget, targeted};
ghost use Rattle.som_semantics.specs.State.{Heap};
ghost use Rattle.som_objects.specs.Objects.{HasClass, IsKnown};
ghost use Rattle.som_interp_state.specs.Holding.{IsUsable};
ghost use Rattle.som_values.specs.Answers.{Answers};
ghost use Rattle.som_values.specs.Shown.{IsNumbered, key_of, shown_ref, showing};
ghost use Rattle.som_interp_objects.specs.Acting.{Acts};
ghost use Rattle.som_interp_objects.specs.Objects.{IsWhole};
ghost use Rattle.som_interp_objects.specs.Statics.{Statics};
ghost use Rattle.std.specs.Prelude.{◌≡◌, ℕ, IfOk, List as Seq, Some, true};

use crate::read_cell;
use som_interp_state::Runtime;
use som_model::Fault;
use som_objects::{Cell, ObjRef, ObjectStore};
use som_tables::ClassNo;
use som_values::{Reference, Stopped};

/// The target of a proxy; nil of what is no proxy. The fault is Freed.
pub fn target<R: Runtime>(
    runtime: &R,
    objects: &ObjectStore,
    reference: Reference,
) -> Result<Cell, Stopped>
    requires { IsInUse (R.linked runtime.now) (R.made runtime.now) objects.now reference }
    ensures means { (statics : Statics) (xs : Seq ℕ) (h : Heap) → Acts (R.linked runtime.now) (R.made runtime.now) objects.now statics (Some reference) xs h
        → Answers (showing (R.linked runtime.now).keys xs) result (targeted (shown_ref (showing (R.linked runtime.now).keys xs) reference) h) }
    ensures usable { (statics : Statics) (xs : Seq ℕ) (h : Heap) → Acts (R.linked runtime.now) (R.made runtime.now) objects.now statics (Some reference) xs h
        → IfOk result (IsUsable (R.linked runtime.now) (R.made runtime.now) xs objects.now) }
{
    match reference {
        Reference::Object(object) => object_target(runtime, objects, &object),
        Reference::Class(_) | Reference::Manager => Ok(Cell::Nil),
    }
}

// The target that an object has, if it is a proxy.
fn object_target<R: Runtime>(
    runtime: &R,
    objects: &ObjectStore,
    object: &ObjRef,
) -> Result<Cell, Stopped>
    requires known { IsKnown objects.now object.now }
    requires whole { IsWhole (R.linked runtime.now) (R.made runtime.now) objects.now object.now }
    requires target { HasTarget (R.linked runtime.now) objects.now object.now }
    ensures { IsTarget (R.linked runtime.now) objects.now object.now result }
{
    match objects.class(object) {
        Ok(of) => live_target(runtime, objects, object, of),
        Err(_) => Err(Stopped::Fault(Fault::Freed)),
    }
}

// The target that a live object of this class has, if it is a proxy.
fn live_target<R: Runtime>(
    runtime: &R,
    objects: &ObjectStore,
    object: &ObjRef,
    of: ClassNo,
) -> Result<Cell, Stopped>
    requires known { IsKnown objects.now object.now }
    requires whole { IsWhole (R.linked runtime.now) (R.made runtime.now) objects.now object.now }
    requires target { HasTarget (R.linked runtime.now) objects.now object.now }
    requires of { HasClass objects.now object.now of }
    ensures { IsTarget (R.linked runtime.now) objects.now object.now result }
{
    match target_place(runtime, of) {
        Some(place) => read_cell(objects, object, place),
        None => Ok(Cell::Nil),
    }
}

// The place of the target among the cells of a class's objects: after their variables.
fn target_place<R: Runtime>(runtime: &R, class: ClassNo) -> Option<u32>
    requires class { IsNumbered (R.linked runtime.now).keys class }
    requires made { R.made runtime.now (key_of (R.linked runtime.now).keys class) ≡ true }
    ensures { result ≡ (R.linked runtime.now).target class }
{
    runtime.know();
    let count = runtime.variable_cells(class);
    if runtime.is_proxy(class) {
        Some(count)
    } else {
        None
    }
}
