//! What is asked for in the call that is made next.

ghost use Rattle.som_exec.specs.Asked.{IsAskedNext, IsLookedUpIn};
ghost use Rattle.som_interp_loop.specs.Scene.{scene};
ghost use Rattle.som_interp_loop.specs.Standing.{IsSomewhere};
ghost use Rattle.som_interp_state.specs.Named.{IsAsked};
ghost use Rattle.std.specs.Prelude.{◌≡◌, ◌<◌, ◌^◌, IfSome, None, Some};

use som_interp_dispatch::can_run;
use som_interp_sites::has_hooks;
use som_interp_state::{Call, Now, Runtime, Task};
use som_objects::ObjectStore;
use som_tables::{ClassNo, MToken};
use som_values::class_of;

/// The class in which a call looks its method up, the method's own token, and the number of the arguments.
#[derive(Clone, Copy)]
pub(crate) struct Asked {
    pub class: ClassNo,
    pub method: MToken,
    pub count: usize,
}

/// What is asked for in the call that is made next, where one is that may go a level deeper, and has no hooks that count.
#[inline(always)]
pub(crate) fn asked_next<R: Runtime>(
    runtime: &R,
    task: &Task,
    objects: &ObjectStore,
    fuel: u32,
) -> Option<Asked>
    requires { IsSomewhere (scene (R.linked runtime.now) (R.known runtime.now) (R.program runtime.now) (R.made runtime.now) objects.now task.now fuel) }
    ensures asked { IfSome result (IsAskedNext (scene (R.linked runtime.now) (R.known runtime.now) (R.program runtime.now) (R.made runtime.now) objects.now task.now fuel)) }
    ensures many { IfSome result (λ asked. asked.count < 2 ^ 63) }
{
    match &task.frames.now {
        Now::Calling { levels, call } => {
            if *levels == 0 {
                return None;
            }
            let class = class_asked(runtime, objects, call)?;
            Some(Asked {
                class,
                method: call.method,
                count: call.args.len(),
            })
        },
        Now::Running(_) | Now::Invoking { .. } | Now::Answering(_) => None,
    }
}

// The class in which a call looks its method up; none where that has hooks that count, self is freed, or self is live and
// doesn't descend from the parent that is named.
fn class_asked<R: Runtime>(runtime: &R, objects: &ObjectStore, call: &Call) -> Option<ClassNo>
    requires { IsAsked (R.linked runtime.now) (R.made runtime.now) objects.now call.now }
    ensures { IfSome result (IsLookedUpIn (R.linked runtime.now) (R.made runtime.now) objects.now call.now) }
{
    match call.parent {
        Some(parent) => if_runs(runtime, objects, call, parent),
        None => if_unhooked(runtime, objects, call),
    }
}

// The class of self, where that isn't freed and the class has no hooks for the method.
fn if_unhooked<R: Runtime>(runtime: &R, objects: &ObjectStore, call: &Call) -> Option<ClassNo>
    requires asked { IsAsked (R.linked runtime.now) (R.made runtime.now) objects.now call.now }
    requires parent { call.now.parent ≡ None }
    ensures { IfSome result (IsLookedUpIn (R.linked runtime.now) (R.made runtime.now) objects.now call.now) }
{
    runtime.know();
    match class_of(runtime, objects, call.me) {
        Ok(class) => {
            if has_hooks(runtime, class, call.method) {
                return None;
            }
            Some(class)
        },
        Err(_) => None,
    }
}

// The parent whose body a call wants, where self is freed or descends from it.
fn if_runs<R: Runtime>(
    runtime: &R,
    objects: &ObjectStore,
    call: &Call,
    parent: ClassNo,
) -> Option<ClassNo>
    requires asked { IsAsked (R.linked runtime.now) (R.made runtime.now) objects.now call.now }
    requires parent { call.now.parent ≡ Some parent }
    ensures { IfSome result (IsLookedUpIn (R.linked runtime.now) (R.made runtime.now) objects.now call.now) }
{
    runtime.know();
    if can_run(runtime, objects, call.me, parent) {
        return Some(parent);
    }
    None
}
