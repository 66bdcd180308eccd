//! Types the statements without blocks by what came of their expressions.

ghost use Rattle.som_model.specs.Blocks.{is_call as calls};
ghost use Rattle.som_model.specs.Class.{Class};
ghost use Rattle.som_model.specs.TypedBlocks.{local_set, plain_return, value_return, variable_set};
ghost use Rattle.som_model.specs.Typing as typing;
ghost use Rattle.som_verify_forms.specs.Kinds.{AreTypes, IsType, PlaceStands, Stands, code_at, kind_at, type_at};
ghost use Rattle.som_verify_forms.specs.Knowing.{IsKnowledge, all_of, facts_of, typed_by};
ghost use Rattle.som_verify_forms.specs.Scopes.{Keeps, scope_at, then_scope, valued_by};
ghost use Rattle.som_verify_forms.specs.declared.code_place.TypeFault.TheVariants as faults;
ghost use Rattle.std.specs.Prelude.{◌≡◌, ◌&&◌, not, if◌then◌else◌, List as Seq, Ok, Err};

use crate::expressions::{expr_kind, value_kind};
use som_model::Expr;
use som_verify_forms::{
    CodePlace, Kind, Knowledge, TypeFault, has_text, is_call, is_nothing, is_object, kind_fits,
    local_kind, variable_kind,
};
use std::alloc::Global;

/// Ok where what a rule demands holds, and else the fault with the rule's number.
pub(crate) fn demand(rule: u8, holds: bool) -> Result<(), TypeFault>
    ensures { result ≡ (if holds then Ok tt else Err (faults.Rule rule)) }
{
    if holds {
        Ok(())
    } else {
        Err(TypeFault::Rule(rule))
    }
}

/// S16 and S17: a local that is in scope takes a value that fits it.
pub(crate) fn set_local(
    alloc: Global,
    known: &Knowledge,
    at: &CodePlace,
    scope: &[Kind],
    local: u16,
    value: &Expr,
) -> Result<(), TypeFault>
    requires known { IsKnowledge known.now }
    requires at { PlaceStands (all_of known.now) at.now }
    requires scope { AreTypes (all_of known.now) scope.now }
    ensures { Keeps (all_of known.now) (then_scope (valued_by known.now at.now scope.now value.now)
        (local_set (facts_of known.now) (scope_at (all_of known.now) scope.now) local)) scope.now result }
{
    let given = value_kind(alloc, known, at, scope, value)?;
    let wanted = local_kind(scope, local as usize)?;
    demand(17, kind_fits(known, wanted, given))
}

/// S16 and S17: a variable of the body's class takes a value that fits it.
pub(crate) fn set_variable(
    alloc: Global,
    known: &Knowledge,
    at: &CodePlace,
    scope: &[Kind],
    variable: u8,
    value: &Expr,
) -> Result<(), TypeFault>
    requires known { IsKnowledge known.now }
    requires at { PlaceStands (all_of known.now) at.now }
    requires scope { AreTypes (all_of known.now) scope.now }
    ensures { Keeps (all_of known.now) (then_scope (valued_by known.now at.now scope.now value.now)
        (variable_set (facts_of known.now) (code_at (all_of known.now) at.now) (scope_at (all_of known.now) scope.now) variable)) scope.now result }
{
    let given = value_kind(alloc, known, at, scope, value)?;
    let wanted = variable_kind(known, at, variable as usize)?;
    demand(17, kind_fits(known, wanted, given))
}

/// S19: a return with no value stands where nothing is answered.
pub(crate) fn return_stands(at: &CodePlace) -> Result<(), TypeFault>
    ensures { (cs : Seq Class) (scope : Seq Kind) → PlaceStands cs at.now →
        Keeps cs (plain_return (code_at cs at.now) (scope_at cs scope)) scope result }
{
    demand(19, is_nothing(at.result))
}

/// S19: a return with a value stands where one is answered, and the value fits.
pub(crate) fn value_returns(
    alloc: Global,
    known: &Knowledge,
    at: &CodePlace,
    scope: &[Kind],
    value: &Expr,
) -> Result<(), TypeFault>
    requires known { IsKnowledge known.now }
    requires at { PlaceStands (all_of known.now) at.now }
    requires scope { AreTypes (all_of known.now) scope.now }
    ensures { Keeps (all_of known.now) (then_scope (valued_by known.now at.now scope.now value.now)
        (value_return (facts_of known.now) (code_at (all_of known.now) at.now) (scope_at (all_of known.now) scope.now))) scope.now result }
{
    let given = value_kind(alloc, known, at, scope, value)?;
    demand(19, is_answer(known, at.result, given))
}

// Whether a value is wanted, and this one fits.
fn is_answer(known: &Knowledge, wanted: Kind, given: Kind) -> bool
    requires known { IsKnowledge known.now }
    requires wanted { IsType (all_of known.now) wanted }
    requires given { Stands (all_of known.now) given }
    ensures { result ≡ (not (typing.is_nothing (typing.Of (type_at (all_of known.now) wanted)))
        && typing.fits (facts_of known.now) (type_at (all_of known.now) wanted) (kind_at (all_of known.now) given)) }
{
    match wanted {
        Kind::Void => false,
        _ => kind_fits(known, wanted, given),
    }
}

/// S17: what is printed is a long, a boolean or a string.
pub(crate) fn is_printed(
    alloc: Global,
    known: &Knowledge,
    at: &CodePlace,
    scope: &[Kind],
    value: &Expr,
) -> Result<(), TypeFault>
    requires known { IsKnowledge known.now }
    requires at { PlaceStands (all_of known.now) at.now }
    requires scope { AreTypes (all_of known.now) scope.now }
    ensures { Keeps (all_of known.now) (then_scope (valued_by known.now at.now scope.now value.now)
        (λ t. typing.needs 17 (typing.has_text t) (Ok (scope_at (all_of known.now) scope.now)))) scope.now result }
{
    let given = value_kind(alloc, known, at, scope, value)?;
    demand(17, has_text(given))
}

/// S17: what is freed is an object, and not plain nil.
pub(crate) fn is_freed(
    alloc: Global,
    known: &Knowledge,
    at: &CodePlace,
    scope: &[Kind],
    value: &Expr,
) -> Result<(), TypeFault>
    requires known { IsKnowledge known.now }
    requires at { PlaceStands (all_of known.now) at.now }
    requires scope { AreTypes (all_of known.now) scope.now }
    ensures { Keeps (all_of known.now) (then_scope (valued_by known.now at.now scope.now value.now)
        (λ t. typing.needs 17 (typing.is_class t) (Ok (scope_at (all_of known.now) scope.now)))) scope.now result }
{
    let given = value_kind(alloc, known, at, scope, value)?;
    demand(17, is_object(given))
}

/// S20: a call stands alone, whatever it answers, and nothing else does.
pub(crate) fn call_stands(
    alloc: Global,
    known: &Knowledge,
    at: &CodePlace,
    scope: &[Kind],
    call: &Expr,
) -> Result<(), TypeFault>
    requires known { IsKnowledge known.now }
    requires at { PlaceStands (all_of known.now) at.now }
    requires scope { AreTypes (all_of known.now) scope.now }
    ensures { Keeps (all_of known.now) (then_scope (typed_by known.now at.now scope.now call.now)
        (λ t. typing.needs 20 (calls call.now) (Ok (scope_at (all_of known.now) scope.now)))) scope.now result }
{
    let _answer = expr_kind(alloc, known, at, scope, call)?;
    demand(20, is_call(call))
}
