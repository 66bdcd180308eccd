//! The hooks of a call, and which of them have bodies for before and for after.

ghost use Rattle.som_semantics.specs.Calls.{Request};
ghost use Rattle.som_model.specs.declared.key.ClassKey.{ClassKey};
ghost use Rattle.som_interp_dispatch.specs.Chosen.{AreHooks, HasHooks, IsFirst, IsHook, IsLast, IsNamed, IsOwn};
ghost use Rattle.som_interp_dispatch.specs.Entered.{IsReady};
ghost use Rattle.som_interp_state.specs.Named.{IsMadeClass};
ghost use Rattle.som_interp_state.specs.Standing.{bodies_left};
ghost use Rattle.som_interp_state.specs.declared.call.Stage.TheVariants as stages;
ghost use Rattle.som_values.specs.Shown.{key_of};
ghost use Rattle.std.specs.List.{All};
ghost use Rattle.std.specs.Prelude.{◌≡◌, ◌<◌, [], IfSome, MatchOption, None, length, true};

use crate::{after_token, before_token};
use som_interp_state::{BodyView, Left, Runtime};
use som_tables::{ClassNo, MToken, Steps};
use std::sync::ledger::Ledger;

/// The hooks of a call: none in a parent call, and none where the kernel owns the method.
pub(crate) fn hooks_of<'a, R: Runtime>(runtime: &'a R, left: &Left) -> &'a [ClassNo]
    requires { IsReady (R.linked runtime.now) (R.made runtime.now) left.now }
    ensures { HasHooks (R.linked runtime.now) (R.made runtime.now) left.now result.now }
{
    runtime.know();
    if left.call.parent.is_some() || left.call.method.class().number() < 4 {
        return &[];
    }
    runtime.hooks(left.class).as_slice()
}

// The body of its own that a class has for a method.
fn own_body<'a, R: Runtime, L: Ledger>(
    runtime: &'a R,
    class: ClassNo,
    method: MToken,
    steps: &mut Steps<L>,
) -> Option<BodyView<'a>>
    requires class { IsMadeClass (R.linked runtime.now) (R.made runtime.now) class }
    requires token { (R.linked runtime.now).is_token method ≡ true }
    requires below { (R.linked runtime.now).world.is_a (key_of (R.linked runtime.now).keys class) ((R.linked runtime.now).method method).class ≡ true }
    ensures own { MatchOption result ((R.linked runtime.now).world.held (key_of (R.linked runtime.now).keys class) ((R.linked runtime.now).method method) ≡ None) (IsOwn (R.linked runtime.now) class method) }
{
    runtime.know();
    let body = runtime.resolve(class, method, steps);
    if body.class == class {
        Some(body)
    } else {
        None
    }
}

/// The first body for before that hooks have from a place on, with the place of its hook.
pub(crate) fn first_before<'a, R: Runtime, L: Ledger>(
    runtime: &'a R,
    hooks: &[ClassNo],
    from: usize,
    steps: &mut Steps<L>,
) -> Option<(usize, BodyView<'a>)>
    requires { All (IsHook (R.linked runtime.now) (R.made runtime.now)) hooks.now }
    ensures first { (x : ClassKey) (q : Request) → AreHooks (R.linked runtime.now) x q hooks.now
        → MatchOption result (bodies_left (R.linked runtime.now).world x q (stages.Before from) ≡ bodies_left (R.linked runtime.now).world x q stages.Method) (IsFirst (R.linked runtime.now) x q from) }
    ensures place { IfSome result (λ found. found.0 < length hooks.now) }
    ensures named { IfSome result (λ found. IsNamed (R.linked runtime.now) found.1) }
    ensures cost { hooks.now ≡ [] → steps.new ≡ steps.old }
{
    let method = before_token(runtime);
    for place in from..hooks.len() {
        if let Some(body) = own_body(runtime, hooks[place], method, steps) {
            return Some((place, body));
        }
    }
    None
}

/// The last body for after that the first so many hooks have, with the place of its hook.
pub(crate) fn last_after<'a, R: Runtime, L: Ledger>(
    runtime: &'a R,
    hooks: &[ClassNo],
    count: usize,
    steps: &mut Steps<L>,
) -> Option<(usize, BodyView<'a>)>
    requires { All (IsHook (R.linked runtime.now) (R.made runtime.now)) hooks.now }
    ensures last { (x : ClassKey) (q : Request) → AreHooks (R.linked runtime.now) x q hooks.now
        → MatchOption result (bodies_left (R.linked runtime.now).world x q (stages.After count) ≡ []) (IsLast (R.linked runtime.now) x q count) }
    ensures place { IfSome result (λ found. found.0 < length hooks.now) }
    ensures named { IfSome result (λ found. IsNamed (R.linked runtime.now) found.1) }
    ensures cost { hooks.now ≡ [] → steps.new ≡ steps.old }
{
    let method = after_token(runtime);
    let mut place = count.min(hooks.len());
    while place > 0 {
        place -= 1;
        if let Some(body) = own_body(runtime, hooks[place], method, steps) {
            return Some((place, body));
        }
    }
    None
}
