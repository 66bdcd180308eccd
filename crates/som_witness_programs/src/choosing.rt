//! Chooses the way in which a client shows a breach.

ghost use Rattle.som_model.specs.Compatible.{signature};
ghost use Rattle.som_model.specs.Owner.{introduces};
ghost use Rattle.som_model.specs.declared.class.Sig.{Sig as Signature};
ghost use Rattle.som_model.specs.declared.limits.TheConstants.{MAX_PARAMETERS};
ghost use Rattle.som_verify_forms.specs.Knowing.{IsKnowledge, all_of};
ghost use Rattle.som_witness.specs.Showings.{changed_showing, parameter_showing, params_of, result_showing, signature_showing, slot_showing};
ghost use Rattle.som_witness_programs.specs.Lent.{shown};
ghost use Rattle.std.specs.Prelude.{◌≡◌, ◌≤◌, Some, length, option_copied};

use crate::differing::{Change, first_change, fits_among, is_void};
use crate::showing::Showing;
use som_model::{MethodRef, Sig, ValueType};
use som_verify_classes::introduced_by;
use som_verify_forms::{Knowledge, entries_of, place_of, signature_of};

/// The signature that a method has, through its owner.
pub fn signature_in<'a>(known: &Knowledge<'a>, method: &'a MethodRef) -> Option<&'a Sig>
    requires { IsKnowledge known.now }
    ensures { option_copied result ≡ signature (all_of known.now) method.now.class method.now.name }
{
    signature_of(known, method)
}

fn slot_by<'a>(own: bool, params: &'a [ValueType]) -> Showing<'a>
    ensures { shown result ≡ slot_showing own params.now }
{
    if own {
        Showing::Overrides(params)
    } else {
        Showing::CallsSlot(params)
    }
}

/// A slot is lost: the class introduces the method, or it was moved to another class.
pub fn slot_showing<'a>(olds: &Knowledge<'a>, method: &'a MethodRef) -> Showing<'a>
    requires { IsKnowledge olds.now }
    ensures { shown result ≡ slot_showing (introduces (all_of olds.now) method.now.name method.now.class)
        (params_of (signature (all_of olds.now) method.now.class method.now.name)) }
{
    slot_by(
        introduces(olds, method),
        params_of(signature_in(olds, method)),
    )
}

fn introduces(olds: &Knowledge, method: &MethodRef) -> bool
    requires { IsKnowledge olds.now }
    ensures { result ≡ introduces (all_of olds.now) method.now.name method.now.class }
{
    match place_of(olds, &method.class) {
        Some(place) => introduced_by(entries_of(olds, place), &method.name).is_some(),
        None => false,
    }
}

fn params_of<'a>(sig: Option<&'a Sig>) -> &'a [ValueType]
    ensures { result.now ≡ params_of (option_copied sig.entry) }
{
    match sig {
        Some(sig) => sig.params.as_slice(),
        None => &[],
    }
}

/// A signature isn't the same: that of the method in the older interface and in the newer one.
pub fn changed_showing<'a>(
    news: &Knowledge,
    before: Option<&'a Sig>,
    after: Option<&Sig>,
) -> Showing<'a>
    requires news { IsKnowledge news.now }
    requires few { (s : Signature) → option_copied before ≡ Some s → length s.params ≤ MAX_PARAMETERS }
    ensures { shown result ≡ changed_showing (all_of news.now) (option_copied before.entry) (option_copied after.entry) }
{
    match (before, after) {
        (Some(before), Some(after)) => signature_showing(news, before, after),
        (Some(before), None) => Showing::Calls(before.params.as_slice()),
        (None, _) => Showing::Calls(&[]),
    }
}

fn signature_showing<'a>(news: &Knowledge, before: &'a Sig, after: &Sig) -> Showing<'a>
    requires news { IsKnowledge news.now }
    requires few { length before.now.params ≤ MAX_PARAMETERS }
    ensures { shown result ≡ signature_showing (all_of news.now) before.now after.now }
{
    let params = before.params.as_slice();
    if params.len() != after.params.len() {
        return Showing::Calls(params);
    }
    match first_change(params, after.params.as_slice()) {
        Some(change) => parameter_showing(news, params, change),
        None => result_showing(news, params, &before.result, &after.result),
    }
}

// A parameter differs: its old type fits the new one, or it doesn't.
fn parameter_showing<'a, 'b>(
    news: &Knowledge,
    params: &'a [ValueType],
    change: Change<'a, 'b>,
) -> Showing<'a>
    requires { IsKnowledge news.now }
    ensures { shown result ≡ parameter_showing (all_of news.now) params.now
        (record { place = change.entry.place; old_type = change.entry.old_type.now; new_type = change.entry.new_type.now }) }
{
    let place = change.place;
    let kind = change.old_type;
    if fits_among(news, change.new_type, kind) {
        Showing::KeepsParameter {
            params,
            place,
            kind,
        }
    } else {
        Showing::Passes {
            params,
            place,
            kind,
        }
    }
}

// The results differ: the old one is void, or the new one fits it, or it doesn't.
fn result_showing<'a>(
    news: &Knowledge,
    params: &'a [ValueType],
    before: &'a ValueType,
    after: &ValueType,
) -> Showing<'a>
    requires { IsKnowledge news.now }
    ensures { shown result ≡ result_showing (all_of news.now) params.now before.now after.now }
{
    if is_void(before) {
        Showing::ReturnsNothing(params)
    } else if fits_among(news, before, after) {
        Showing::ReturnsVariable {
            params,
            kind: before,
        }
    } else {
        Showing::ReturnsAnswer {
            params,
            kind: before,
        }
    }
}
