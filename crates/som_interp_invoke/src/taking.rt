//! What a body is invoked with, and what waits for its end, out of the bodies that are left.

ghost use Rattle.som_objects.specs.declared.cell.Cell.TheVariants as cells;
ghost use Rattle.som_objects.specs.declared.cell.Cell.{Cell as Value};
ghost use Rattle.som_interp_dispatch.specs.declared.chosen.Role.TheVariants as roles;
ghost use Rattle.som_interp_invoke.specs.Chosen.{IsInvoking};
ghost use Rattle.som_interp_invoke.specs.Taken.{IsTaken};
ghost use Rattle.som_interp_state.specs.Settings.{Linked};
ghost use Rattle.som_interp_state.specs.declared.call.Left.{Left as Bodies};
ghost use Rattle.som_interp_state.specs.declared.call.Stage.TheVariants as stages;
ghost use Rattle.som_interp_state.specs.declared.frames.Now.TheVariants as nows;
ghost use Rattle.som_values.specs.Shown.{cell_of};
ghost use Rattle.std.specs.Prelude.{◌≡◌, ◌≢◌, ◌∷◌, [], IfOk, true, false};

use crate::planning::me;
use som_interp_dispatch::Role;
use som_interp_state::{Frames, Left, Now, Runtime, Stage, Waiting};
use som_model::NoMemory;
use som_objects::{Cell, SharedText};
use som_values::{Reference, refer};
use std::alloc::Global;
use std::mem;

/// What a body is invoked with: how many levels its calls may go, self, and the arguments.
#[derive(Drop)]
pub(crate) struct Taken {
    pub levels: u32,
    pub me: Reference,
    pub args: Vec<Cell>,
}

/// What the call answers so far, taken out of the frames.
pub(crate) fn take_answer(frames: &mut Frames) -> Cell
    requires { IsInvoking frames.old.now }
    ensures answer { (left : Bodies) (cell : Value) → frames.old.now ≡ nows.Invoking left cell → result ≡ cell }
    ensures waiting { frames.new.waiting ≡ frames.old.waiting }
{
    match mem::replace(&mut frames.now, Now::Answering(Cell::Nil)) {
        Now::Invoking { answer, .. } => answer,
        Now::Running(_) | Now::Calling { .. } | Now::Answering(_) => unreachable!(),
    }
}

/// Takes the bodies that are left out of the frames: what a body is invoked with, and what waits for its end. The
/// arguments of the call go to the method's body.
pub(crate) fn take<R: Runtime>(
    alloc: Global,
    runtime: &R,
    frames: &mut Frames,
    role: Role,
    rest: Stage,
) -> Result<Taken, NoMemory>
    requires invoking { IsInvoking frames.old.now }
    requires token { (left : Bodies) (cell : Value) → frames.old.now ≡ nows.Invoking left cell → (R.linked runtime.now).is_token left.call.method ≡ true }
    ensures { (left : Bodies) (cell : Value) → frames.old.now ≡ nows.Invoking left cell
        → IfOk result (IsTaken (R.linked runtime.now) left cell role rest frames.old.waiting.items frames.new.waiting.items) }
{
    match mem::replace(&mut frames.now, Now::Answering(Cell::Nil)) {
        Now::Invoking { left, answer } => match role {
            Role::Method => take_method(alloc, &mut frames.waiting, left, rest),
            Role::Before | Role::After => {
                take_hook(
                    alloc,
                    runtime,
                    &mut frames.waiting,
                    left,
                    answer,
                    role,
                    rest,
                )
            },
        },
        Now::Running(_) | Now::Calling { .. } | Now::Answering(_) => unreachable!(),
    }
}

// The method's body takes the arguments, and nothing waits where it is the last.
fn take_method(
    alloc: Global,
    waiting: &mut Vec<Waiting>,
    mut left: Left,
    rest: Stage,
) -> Result<Taken, NoMemory>
    ensures { (l : Linked) (cell : Value) → IfOk result (IsTaken l left cell roles.Method rest waiting.old.items waiting.new.items) }
{
    let args = mem::replace(&mut left.call.args, Vec::new(alloc));
    let taken = Taken {
        levels: left.levels,
        me: me(&left, Role::Method),
        args,
    };
    if is_over(rest) {
        return Ok(taken);
    }
    left.stage = rest;
    waiting.push(Waiting::Method(left))?;
    Ok(taken)
}

fn is_over(rest: Stage) -> bool
    ensures yes { result ≡ true → rest ≡ stages.After 0 }
    ensures no { result ≡ false → rest ≢ stages.After 0 }
{
    match rest {
        Stage::After(count) => count == 0,
        Stage::Before(_) | Stage::Method => false,
    }
}

// A hook's body gets the object and the method's name; the call waits for its end.
fn take_hook<R: Runtime>(
    alloc: Global,
    runtime: &R,
    waiting: &mut Vec<Waiting>,
    mut left: Left,
    answer: Cell,
    role: Role,
    rest: Stage,
) -> Result<Taken, NoMemory>
    requires token { (R.linked runtime.now).is_token left.call.method ≡ true }
    requires role { role ≢ roles.Method }
    ensures { IfOk result (IsTaken (R.linked runtime.now) left answer role rest waiting.old.items waiting.new.items) }
{
    let taken = Taken {
        levels: left.levels,
        me: me(&left, role),
        args: hook_args(alloc, runtime, &left)?,
    };
    left.stage = rest;
    waiting.push(Waiting::Hook { left, answer })?;
    Ok(taken)
}

// The object and the method's name.
fn hook_args<R: Runtime>(alloc: Global, runtime: &R, left: &Left) -> Result<Vec<Cell>, NoMemory>
    requires { (R.linked runtime.now).is_token left.now.call.method ≡ true }
    ensures { IfOk result (λ args. args.items ≡ cell_of left.now.call.me ∷ cells.Str ((R.linked runtime.now).method left.now.call.method).name ∷ []) }
{
    runtime.know();
    let name = runtime.method_name(left.call.method).copy(alloc)?;
    let mut args = Vec::new(alloc);
    args.push(refer(left.call.me))?;
    args.push(Cell::Str(SharedText::from_text(alloc, name)?))?;
    Ok(args)
}
