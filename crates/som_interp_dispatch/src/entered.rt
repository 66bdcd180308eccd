//! A call entered one level deeper, with all its bodies left, or the fault Depth.

ghost use Rattle.som_code.specs.declared.instruction.Instruction.{Instruction};
ghost use Rattle.som_semantics.specs.State.{Heap};
ghost use Rattle.som_interp_dispatch.specs.Entered.{Enters, IsReady};
ghost use Rattle.som_interp_state.specs.Named.{IsAsked, IsMadeClass, IsOnLive, Owner, setting};
ghost use Rattle.som_interp_state.specs.Tests.{call_stands};
ghost use Rattle.som_interp_state.specs.Holding.{IsUsableRef};
ghost use Rattle.som_interp_state.specs.Standing.{call_shown};
ghost use Rattle.som_interp_state.specs.declared.call.Stage.TheVariants as stages;
ghost use Rattle.som_values.specs.Shown.{IsSeenRef, showing};
ghost use Rattle.som_values.specs.Stored.{Holds};
ghost use Rattle.std.specs.Prelude.{◌≡◌, ◌+◌, ℕ, IfOk, List, true};

use crate::live_class;
use som_interp_state::{Call, Left, Runtime, Stage};
use som_model::Fault;
use som_objects::ObjectStore;

/// Makes a call that has passed its tests: where no level is left the fault is Depth, and else all its bodies are
/// left, one level deeper.
pub fn enter<R: Runtime>(
    runtime: &R,
    objects: &ObjectStore,
    levels: u32,
    call: Call,
) -> Result<Left, Fault>
    requires asked { IsAsked (R.linked runtime.now) (R.made runtime.now) objects.now call }
    requires live { IsOnLive objects.now call.me call.parent }
    ensures enters { (xs : List ℕ) (cs : List (List Instruction)) (h : Heap) → Holds (showing (R.linked runtime.now).keys xs) objects.now h → IsSeenRef (showing (R.linked runtime.now).keys xs) call.me
        → Enters (setting (R.linked runtime.now) xs cs) h levels call result }
    ensures left { IfOk result (λ left. (left.call ≡ call) × (left.stage ≡ stages.Before 0) × (left.levels + 1 ≡ levels)) }
    ensures class { IfOk result (λ left. IsMadeClass (R.linked runtime.now) (R.made runtime.now) left.class) }
    ensures ready { (t : Owner (R.linked runtime.now) (R.made runtime.now) objects.now) (cs : List (List Instruction)) → IsUsableRef (R.linked runtime.now) (R.made runtime.now) t.serials objects.now call.me
        → call_stands (R.linked runtime.now).world (call_shown (setting (R.linked runtime.now) t.serials cs) call) (call_shown (setting (R.linked runtime.now) t.serials cs) call).parent t.heap ≡ true
        → IfOk result (λ left. IsReady (R.linked runtime.now) (R.made runtime.now) left) }
{
    if levels == 0 {
        return Err(Fault::Depth);
    }
    let class = match call.parent {
        Some(parent) => parent,
        None => live_class(runtime, objects, call.me),
    };
    Ok(Left {
        levels: levels - 1,
        class,
        stage: Stage::Before(0),
        call,
    })
}
