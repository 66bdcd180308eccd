//! The body that is next in a call: hooks before, the method's own, hooks after.

ghost use Rattle.som_code.specs.declared.instruction.Instruction.{Instruction};
ghost use Rattle.som_semantics.specs.Means.{hooks_of as hooks_in};
ghost use Rattle.som_semantics.specs.Calls.{Request};
ghost use Rattle.som_model.specs.declared.key.ClassKey.{ClassKey};
ghost use Rattle.som_interp_dispatch.specs.Chosen.{AreHooks, Costs, HasHooks, IsHook, IsNamed, IsNext, IsRest};
ghost use Rattle.som_interp_dispatch.specs.Entered.{IsReady};
ghost use Rattle.som_interp_state.specs.Named.{setting};
ghost use Rattle.som_interp_state.specs.Standing.{bodies_left, call_shown, left_shown};
ghost use Rattle.som_interp_state.specs.declared.call.Stage.TheVariants as stages;
ghost use Rattle.som_values.specs.Shown.{key_of};
ghost use Rattle.std.specs.List.{All};
ghost use Rattle.std.specs.Prelude.{◌≡◌, ◌+◌, [], ℕ, IfSome, List, MatchOption};

use crate::hooks::{first_before, hooks_of, last_after};
use crate::{Chosen, Role};
use som_interp_state::{Left, Runtime, Stage};
use som_tables::{ClassNo, Steps};
use std::sync::ledger::Ledger;

/// The body that is next in a call, and from where on bodies are left after it: first those of hooks for before, in
/// order, then the method's, and then those of hooks for after, the last hook's first. Hooks without a body of their
/// own are passed over. A body takes two steps where there are no hooks.
pub fn next<'a, R: Runtime, L: Ledger>(
    runtime: &'a R,
    left: &Left,
    steps: &mut Steps<L>,
) -> Option<Chosen<'a>>
    requires { IsReady (R.linked runtime.now) (R.made runtime.now) left.now }
    ensures next { (xs : List ℕ) (cs : List (List Instruction)) → MatchOption result (left_shown (setting (R.linked runtime.now) xs cs) left.now ≡ []) (IsNext (R.linked runtime.now) (key_of (R.linked runtime.now).keys left.now.class) (call_shown (setting (R.linked runtime.now) xs cs) left.now.call) left.now.stage) }
    ensures named { IfSome result (λ c. IsNamed (R.linked runtime.now) c.body) }
    ensures cost { (xs : List ℕ) (cs : List (List Instruction)) → hooks_in (R.linked runtime.now).world (key_of (R.linked runtime.now).keys left.now.class) (call_shown (setting (R.linked runtime.now) xs cs) left.now.call) ≡ []
        → Costs steps.old steps.new result }
{
    let hooks = hooks_of(runtime, left);
    match left.stage {
        Stage::Before(from) => Some(before_body(runtime, left, hooks, from, steps)),
        Stage::Method => Some(method_body(runtime, left, hooks, steps)),
        Stage::After(count) => after_body(runtime, hooks, count, steps),
    }
}

// The first body that a hook has for before from a place on, and else the method's body.
fn before_body<'a, R: Runtime, L: Ledger>(
    runtime: &'a R,
    left: &Left,
    hooks: &[ClassNo],
    from: usize,
    steps: &mut Steps<L>,
) -> Chosen<'a>
    requires ready { IsReady (R.linked runtime.now) (R.made runtime.now) left.now }
    requires hooks { HasHooks (R.linked runtime.now) (R.made runtime.now) left.now hooks.now }
    ensures next { (xs : List ℕ) (cs : List (List Instruction)) → IsNext (R.linked runtime.now) (key_of (R.linked runtime.now).keys left.now.class) (call_shown (setting (R.linked runtime.now) xs cs) left.now.call) (stages.Before from) result }
    ensures named { IsNamed (R.linked runtime.now) result.body }
    ensures cost { hooks.now ≡ [] → steps.new ≡ steps.old + 2 }
{
    match first_before(runtime, hooks, from, steps) {
        Some((place, body)) => Chosen {
            body,
            role: Role::Before,
            rest: Stage::Before(place + 1),
        },
        None => method_body(runtime, left, hooks, steps),
    }
}

// The method's body: that of the parent whose body is wanted, and else that of the object's class.
fn method_body<'a, R: Runtime, L: Ledger>(
    runtime: &'a R,
    left: &Left,
    hooks: &[ClassNo],
    steps: &mut Steps<L>,
) -> Chosen<'a>
    requires ready { IsReady (R.linked runtime.now) (R.made runtime.now) left.now }
    requires hooks { HasHooks (R.linked runtime.now) (R.made runtime.now) left.now hooks.now }
    ensures next { (xs : List ℕ) (cs : List (List Instruction)) → IsNext (R.linked runtime.now) (key_of (R.linked runtime.now).keys left.now.class) (call_shown (setting (R.linked runtime.now) xs cs) left.now.call) stages.Method result }
    ensures named { IsNamed (R.linked runtime.now) result.body }
    ensures cost { hooks.now ≡ [] → steps.new ≡ steps.old + 2 }
{
    runtime.know();
    let class = left.call.parent.unwrap_or(left.class);
    Chosen {
        body: runtime.resolve(class, left.call.method, steps),
        role: Role::Method,
        rest: rest_after(runtime, hooks, steps),
    }
}

// What is left after the method's body: nothing, or the hooks up to the last that has a body for after.
fn rest_after<R: Runtime, L: Ledger>(runtime: &R, hooks: &[ClassNo], steps: &mut Steps<L>) -> Stage
    requires { All (IsHook (R.linked runtime.now) (R.made runtime.now)) hooks.now }
    ensures rest { (x : ClassKey) (q : Request) → AreHooks (R.linked runtime.now) x q hooks.now → IsRest (R.linked runtime.now) x q result }
    ensures cost { hooks.now ≡ [] → steps.new ≡ steps.old }
{
    match last_after(runtime, hooks, hooks.len(), steps) {
        Some((place, _)) => Stage::After(place + 1),
        None => Stage::After(0),
    }
}

// The last body for after that the first so many hooks have.
fn after_body<'a, R: Runtime, L: Ledger>(
    runtime: &'a R,
    hooks: &[ClassNo],
    count: usize,
    steps: &mut Steps<L>,
) -> Option<Chosen<'a>>
    requires { All (IsHook (R.linked runtime.now) (R.made runtime.now)) hooks.now }
    ensures next { (x : ClassKey) (q : Request) → AreHooks (R.linked runtime.now) x q hooks.now
        → MatchOption result (bodies_left (R.linked runtime.now).world x q (stages.After count) ≡ []) (IsNext (R.linked runtime.now) x q (stages.After count)) }
    ensures named { IfSome result (λ c. IsNamed (R.linked runtime.now) c.body) }
    ensures cost { hooks.now ≡ [] → Costs steps.old steps.new result }
{
    match last_after(runtime, hooks, count, steps) {
        Some((place, body)) => Some(Chosen {
            body,
            role: Role::After,
            rest: Stage::After(place),
        }),
        None => None,
    }
}
