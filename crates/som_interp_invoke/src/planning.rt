//! How the next body is planned: chosen, tested, paid for, told and laid out.

ghost use Rattle.som_code.specs.declared.instruction.Instruction.{Instruction};
ghost use Rattle.som_code_cache.specs.Coded.{AreCodes, Coded};
ghost use Rattle.som_machine_laws.specs.Counted.{first_looks};
ghost use Rattle.som_io.specs.Outside.{Rose};
ghost use Rattle.som_semantics.specs.Means.{hooks_of};
ghost use Rattle.som_interp_loop.specs.declared.stop.Stop.TheVariants as stops;
ghost use Rattle.som_interp_dispatch.specs.Entered.{IsReady};
ghost use Rattle.som_interp_state.specs.Named.{HasOwner, setting};
ghost use Rattle.som_interp_invoke.specs.Chosen.{First, IsFirst, Planned, Tested, count_of, self_of, way_of};
ghost use Rattle.som_interp_state.specs.Standing.{call_shown, left_shown};
ghost use Rattle.som_trace.specs.Filters.{shows_of};
ghost use Rattle.som_values.specs.Shown.{IsNumbered, key_of};
ghost use Rattle.std.specs.Prelude.{◌≡◌, ◌≢◌, ◌≤◌, ◌<◌, ◌^◌, ◌++◌, ◌+◌, [], ℕ, Err, List};

use crate::plan::Plan;
use crate::prepare;
use som_code_cache::Codes;
use som_interp_dispatch::{Chosen, Role, can_run, next};
use som_interp_loop::Stop;
use som_interp_state::{Left, Runtime};
use som_io::Sink;
use som_model::{Fault, Text};
use som_objects::ObjectStore;
use som_tables::{ClassNo, MToken, Steps};
use som_trace::{Call, Manner, Place, TraceFilter, tell_call};
use som_values::Reference;
use std::alloc::Global;
use std::sync::ledger::Ledger;

/// Plans the body of a call that is invoked next, if one is left: its test is passed, a unit taken, its line told, and
/// its block laid out.
pub(crate) fn plan<R: Runtime, K: Sink, L: Ledger>(
    alloc: Global,
    runtime: &R,
    codes: &mut Codes,
    objects: &ObjectStore,
    left: &Left,
    trace: &TraceFilter,
    prefix: &Text,
    fuel: &mut u32,
    out: &mut K,
    steps: &mut Steps<L>,
) -> Result<Option<Plan>, Stop>
    requires ready { IsReady (R.linked runtime.now) (R.made runtime.now) left.now }
    requires me { (f : First) → IsFirst (R.linked runtime.now) left.now f → HasOwner (R.linked runtime.now) (R.made runtime.now) objects.now (self_of left.now f.role) }
    requires codes { AreCodes (R.known runtime.now) (R.program runtime.now) codes.old }
    ensures planned { Planned (R.linked runtime.now) objects.now left.now (shows_of trace.now) prefix.now (K.written out.old) (K.written out.new) codes.old codes.new fuel.old fuel.new result }
    ensures codes { AreCodes (R.known runtime.now) (R.program runtime.now) codes.new }
    ensures more { (added : List Coded) × (codes.new ≡ codes.old ++ added) }
    ensures cost { (xs : List ℕ) (cs : List (List Instruction)) → hooks_of (R.linked runtime.now).world (key_of (R.linked runtime.now).keys left.now.class) (call_shown (setting (R.linked runtime.now) xs cs) left.now.call) ≡ [] → steps.new ≤ steps.old + first_looks (left_shown (setting (R.linked runtime.now) xs cs) left.now) }

    ensures later { K.faults out.old ≤ K.faults out.new }
    ensures cause { result ≡ Err stops.SinkFailed → Rose (K.faults out.old) (K.faults out.new) }

    ensures calm_stays { K.calm out.old → K.calm out.new }
    ensures calm_count { K.calm out.old → K.faults out.new ≡ K.faults out.old }
    ensures calm_answer { K.calm out.old → result ≢ Err stops.SinkFailed }
{
    runtime.know();
    let Some(chosen) = next(runtime, left, steps) else {
        return Ok(None);
    };
    let Chosen { body, role, rest } = chosen;
    let class = body.class;
    let method = body.method;
    test(runtime, objects, left, role, class, method, fuel)?;
    let manner = manner(left, role);
    let call = Call {
        method,
        manner,
        class,
    };
    tell_call(alloc, out, runtime, trace, prefix, call)?;
    let begun = prepare(alloc, runtime, codes, body, count(left, role))?;
    Ok(Some(Plan { begun, role, rest }))
}

// The test of a chosen body, and then a unit for it.
fn test<R: Runtime>(
    runtime: &R,
    objects: &ObjectStore,
    left: &Left,
    role: Role,
    class: ClassNo,
    method: MToken,
    fuel: &mut u32,
) -> Result<(), Stop>
    requires numbered { IsNumbered (R.linked runtime.now).keys class }
    requires me { HasOwner (R.linked runtime.now) (R.made runtime.now) objects.now (self_of left.now role) }
    ensures { Tested (R.linked runtime.now) objects.now left.now role class method fuel.old fuel.new result }
{
    if !can_run(runtime, objects, me(left, role), class) {
        let at = Place::Body { class, method };
        return Err(Stop::Fault {
            fault: Fault::Nil,
            at,
        });
    }
    if *fuel == 0 {
        return Err(Stop::Spent);
    }
    *fuel -= 1;
    Ok(())
}

/// Who runs: a hook's body runs on the class object.
pub(crate) fn me(left: &Left, role: Role) -> Reference
    ensures { result ≡ self_of left.now role }
{
    match role {
        Role::Method => left.call.me,
        Role::Before | Role::After => Reference::Class(left.class),
    }
}

// How a body is reached.
fn manner(left: &Left, role: Role) -> Manner
    ensures { result ≡ way_of left.now role }
{
    match role {
        Role::Before => Manner::Before,
        Role::Method => left.call.manner,
        Role::After => Manner::After,
    }
}

// With how many arguments: a hook's body gets the object and the method's name.
fn count(left: &Left, role: Role) -> usize
    ensures is { result ≡ count_of left.now role }
    ensures fits { result < 2 ^ 63 }
{
    match role {
        Role::Method => left.call.args.len(),
        Role::Before | Role::After => 2,
    }
}
