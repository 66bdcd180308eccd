//! A task started where main begins.

ghost use Rattle.som_code_cache.specs.Coded.{AreCodes, Coded};
ghost use Rattle.som_interp_task.specs.Beginning.{IsFirst};
ghost use Rattle.som_interp_task.specs.Stands.{Stands, StandsAnywhere};
ghost use Rattle.som_meta.specs.Numbering.{Numbering};
ghost use Rattle.som_semantics.specs.World.{World};
ghost use Rattle.som_model.specs.declared.key.ClassKey.{ClassKey};
ghost use Rattle.som_model.specs.declared.syntax.Block.{Block as Main};
ghost use Rattle.som_interp_loop.specs.Scene.{scene};
ghost use Rattle.som_objects.specs.Objects.{Objects};
ghost use Rattle.som_interp_state.specs.Asked.{Agree, CanLoad};
ghost use Rattle.som_interp_state.specs.Settings.{Linked};
ghost use Rattle.som_interp_state.specs.declared.task.Task.{Task as Started};
ghost use Rattle.std.specs.Prelude.{◌≡◌, [], Bool, IfOk, List as Seq, false, true};

use crate::Task;
use som_code_cache::Codes;
use som_interp_state::{Body, Frames, Now, Runtime, Zero};
use som_model::{List, MAX_DEPTH, NoMemory};
use som_trace::Place;
use std::alloc::Global;

/// A task where main begins: nothing is granted, and it has no objects. It stands with every store.
pub fn start<R: Runtime>(alloc: Global, runtime: &R) -> Result<Task, NoMemory>
    ensures live { IfOk result (λ t. t.live ≡ true) }
    ensures granted { IfOk result (λ t. t.task.granted ≡ 0) }
    ensures begun { IfOk result (λ t. t.task.begun ≡ false) }
    ensures serials { IfOk result (λ t. t.task.serials ≡ []) }
    ensures stands { IfOk result (StandsAnywhere (R.linked runtime.now) (R.known runtime.now) (R.program runtime.now) (R.made runtime.now)) }
{
    runtime.know();
    first_law();
    let codes = Codes::new(alloc, runtime.main())?;
    Ok(Task {
        task: first(alloc, codes),
        live: true,
    })
}

/// A task that runs the first of these codes, and has nothing else.
fn first(alloc: Global, codes: Codes) -> som_interp_state::Task
    ensures { IsFirst codes result }
{
    som_interp_state::Task {
        frames: Frames {
            now: Now::Running(Body {
                levels: MAX_DEPTH,
                me: None,
                place: Place::Main,
                zero: Zero::Nil,
                code: 0,
                at: 0,
                operands: Vec::new(alloc),
                locals: Vec::new(alloc),
            }),
            waiting: Vec::new(alloc),
        },
        codes,
        statics: Vec::new(alloc),
        serials: List::new(alloc),
        granted: 0,
        begun: false,
    }
}

/// A task that runs main, and has nothing else, stands among classes that can be loaded.
fn first_law()
    ensures { (ks : Seq ClassKey) (w : World) (l : Linked) (known : Numbering) (main : Main) (made : ClassKey → Bool) (os : Objects) (t : Started) (cs : Seq Coded) →
        Agree ks w known l → CanLoad known.classes main → AreCodes known main cs → IsFirst cs t → Stands (scene l known main made os t 0) }
{
    som_interp_loop::start_law();
}
