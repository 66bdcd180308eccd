//! The tests of a call and of a body that never fail in a typed run.

ghost use Rattle.som_code.specs.declared.instruction.Instruction.{Instruction};
ghost use Rattle.som_semantics.specs.State.{Heap};
ghost use Rattle.som_interp_state.specs.Named.{HasOwner, IsAsked, setting};
ghost use Rattle.som_interp_state.specs.Tests.{call_stands, stands};
ghost use Rattle.som_interp_state.specs.Standing.{call_shown};
ghost use Rattle.som_values.specs.Shown.{IsNumbered, IsSeenRef, key_of, shown_ref, showing};
ghost use Rattle.som_values.specs.Stored.{Holds};
ghost use Rattle.std.specs.Prelude.{◌≡◌, ℕ, List};

use som_interp_state::{Call, Runtime};
use som_objects::ObjectStore;
use som_tables::ClassNo;
use som_values::{Reference, class_of};

/// The test of a call: a live object's class descends from the method's; in a parent call the parent does.
pub fn has_method<R: Runtime>(runtime: &R, objects: &ObjectStore, call: &Call) -> bool
    requires { IsAsked (R.linked runtime.now) (R.made runtime.now) objects.now call.now }
    ensures { (xs : List ℕ) (cs : List (List Instruction)) (h : Heap) → Holds (showing (R.linked runtime.now).keys xs) objects.now h → IsSeenRef (showing (R.linked runtime.now).keys xs) call.now.me
        → result ≡ call_stands (R.linked runtime.now).world (call_shown (setting (R.linked runtime.now) xs cs) call.now) (call_shown (setting (R.linked runtime.now) xs cs) call.now).parent h }
{
    runtime.know();
    match call.parent {
        Some(parent) => runtime.inherits(parent, call.method.class()),
        None => can_run(runtime, objects, call.me, call.method.class()),
    }
}

/// The test of a body of a class: a live object's class descends from it.
pub fn can_run<R: Runtime>(
    runtime: &R,
    objects: &ObjectStore,
    me: Reference,
    class: ClassNo,
) -> bool
    requires me { HasOwner (R.linked runtime.now) (R.made runtime.now) objects.now me }
    requires class { IsNumbered (R.linked runtime.now).keys class }
    ensures { (xs : List ℕ) (h : Heap) → Holds (showing (R.linked runtime.now).keys xs) objects.now h → IsSeenRef (showing (R.linked runtime.now).keys xs) me
        → result ≡ stands (R.linked runtime.now).world (shown_ref (showing (R.linked runtime.now).keys xs) me) (key_of (R.linked runtime.now).keys class) h }
{
    runtime.know();
    match class_of(runtime, objects, me) {
        Ok(of) => runtime.inherits(of, class),
        Err(_) => true,
    }
}
