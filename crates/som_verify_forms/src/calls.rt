//! Types the expressions that name classes and methods: self, new, casts, proxies, and calls of each form.

ghost use Rattle.som_model.specs.Keys.{same_key};
ghost use Rattle.som_model.specs.Typing as typing;
ghost use Rattle.som_verify_classes.specs.Places.{key_at};
ghost use Rattle.som_verify_forms.specs.Kinds.{AllStand, Comes, IsType, Names, PlaceStands, Stands, code_at, is_proper_at, key_of, kind_at, parent_at, type_at};
ghost use Rattle.som_verify_forms.specs.Knowing.{IsKnowledge, all_of, facts_of, sig_is_known};
ghost use Rattle.std.specs.Prelude.{◌≡◌, ◌<◌, ◌&&◌, not, true, length, map, Ok, IfSome};

use crate::code_place::CodePlace;
use crate::forms::{gives, is_nothing, is_object, is_reference};
use crate::kind::Kind;
use crate::knowledge::{
    Knowledge, decl_at, descends_from, is_below, is_instance, kind_fits, kind_of, metaclass_of,
    owner, place_of, signature_of, type_fits,
};
use som_model::{ClassKey, MAX_PARAMETERS, MethodRef, Sig, ValueType};
use som_verify_classes::SOM_CLASS;

/// The body's own object; S20 is broken outside of bodies of classes.
pub fn self_kind(known: &Knowledge, at: &CodePlace) -> Result<Kind, u8>
    requires known { IsKnowledge known.now }
    requires place { PlaceStands (all_of known.now) at.now }
    ensures { Comes (all_of known.now) (typing.self_type (code_at (all_of known.now) at.now)) result }
{
    match at.class {
        Some(class) => Ok(Kind::Class(class)),
        None => Err(20),
    }
}

/// A variable of the body's class, by its place; S16 is broken where there is none.
pub fn variable_kind(known: &Knowledge, at: &CodePlace, place: usize) -> Result<Kind, u8>
    requires known { IsKnowledge known.now }
    requires place { PlaceStands (all_of known.now) at.now }
    ensures { Names (all_of known.now) (typing.own_variable (code_at (all_of known.now) at.now) place) result }
{
    let Some(class) = at.class else {
        return Err(16);
    };
    let variables = decl_at(known, class).variables.as_slice();
    if place < variables.len() {
        match kind_of(known, &variables[place].kind) {
            Some(kind) => Ok(kind),
            None => unreachable!(),
        }
    } else {
        Err(16)
    }
}

/// A new object of a class; S16 is broken where it isn't known.
pub fn new_kind(known: &Knowledge, class: &ClassKey) -> Result<Kind, u8>
    requires { IsKnowledge known.now }
    ensures { Comes (all_of known.now) (typing.new_type (facts_of known.now) class.now) result }
{
    match place_of(known, class) {
        Some(place) => Ok(Kind::Class(place)),
        None => Err(16),
    }
}

/// The object of a class, which is of the declared metaclass or else of SOMClass; S16 is broken where the class isn't
/// known.
pub fn class_kind(known: &Knowledge, class: &ClassKey) -> Result<Kind, u8>
    requires { IsKnowledge known.now }
    ensures { Comes (all_of known.now) (typing.class_type (facts_of known.now) class.now) result }
{
    let Some(place) = place_of(known, class) else {
        return Err(16);
    };
    let Some(metaclass) = metaclass_of(known, place) else {
        return Ok(Kind::Class(SOM_CLASS));
    };
    match place_of(known, metaclass) {
        Some(place) => Ok(Kind::Class(place)),
        None => unreachable!(),
    }
}

/// A reference taken as one of a class; S16 is broken where the class isn't known, and S17 where it is no reference.
pub fn cast_kind(known: &Knowledge, class: &ClassKey, kind: Kind) -> Result<Kind, u8>
    requires known { IsKnowledge known.now }
    requires kind { Stands (all_of known.now) kind }
    ensures { Comes (all_of known.now) (typing.cast_type (facts_of known.now) class.now (kind_at (all_of known.now) kind)) result }
{
    match place_of(known, class) {
        Some(place) => gives(is_reference(kind), Kind::Class(place)),
        None => Err(16),
    }
}

/// Whether a reference is of a class; S16 and S17 are broken as by a cast.
pub fn isa_kind(known: &Knowledge, class: &ClassKey, kind: Kind) -> Result<Kind, u8>
    requires known { IsKnowledge known.now }
    requires kind { Stands (all_of known.now) kind }
    ensures { Comes (all_of known.now) (typing.isa_type (facts_of known.now) class.now (kind_at (all_of known.now) kind)) result }
{
    match place_of(known, class) {
        Some(_) => gives(is_reference(kind), Kind::Boolean),
        None => Err(16),
    }
}

/// A proxy of a reference; S16 is broken where the class isn't known, and S17 where the reference doesn't fit it.
pub fn proxy_kind(known: &Knowledge, class: &ClassKey, kind: Kind) -> Result<Kind, u8>
    requires known { IsKnowledge known.now }
    requires kind { Stands (all_of known.now) kind }
    ensures { Comes (all_of known.now) (typing.proxy_type (facts_of known.now) class.now (kind_at (all_of known.now) kind)) result }
{
    match place_of(known, class) {
        Some(place) => {
            let wanted = Kind::Class(place);
            gives(kind_fits(known, wanted, kind), wanted)
        }
        None => Err(16),
    }
}

/// Whether there are as many arguments as parameters, and each fits its own.
pub fn all_fit(known: &Knowledge, params: &[ValueType], args: &[Kind]) -> bool
    requires known { IsKnowledge known.now }
    requires args { AllStand (all_of known.now) args.now }
    ensures { result ≡ typing.all_fit (facts_of known.now) params.now (map (kind_at (all_of known.now)) args.now) }
{
    if params.len() != args.len() {
        return false;
    }
    for (place, param) in params.iter().enumerate() {
        if !type_fits(known, param, args[place]) {
            return false;
        }
    }
    true
}

// What a method of a known signature answers.
fn answer_of(known: &Knowledge, sig: &Sig) -> Kind
    requires known { IsKnowledge known.now }
    requires sig { sig_is_known (all_of known.now) sig.now ≡ true }
    ensures is { type_at (all_of known.now) result ≡ sig.now.result }
    ensures stands { IsType (all_of known.now) result }
{
    match kind_of(known, &sig.result) {
        Some(kind) => kind,
        None => unreachable!(),
    }
}

// What a call answers whose arguments fit the parameters; else S18 is broken.
fn called(known: &Knowledge, sig: &Sig, args: &[Kind]) -> Result<Kind, u8>
    requires known { IsKnowledge known.now }
    requires sig { sig_is_known (all_of known.now) sig.now ≡ true }
    requires args { AllStand (all_of known.now) args.now }
    ensures { Comes (all_of known.now) (typing.needs 18 (typing.all_fit (facts_of known.now) sig.now.params (map (kind_at (all_of known.now)) args.now))
        (Ok (typing.Of sig.now.result))) result }
{
    if all_fit(known, sig.params.as_slice(), args) {
        Ok(answer_of(known, sig))
    } else {
        Err(18)
    }
}

/// A call by offset; S16 is broken where there is no such method, S17 where the receiver doesn't descend from the class
/// of the reference, and S18 where the arguments don't fit.
pub fn offset_call_kind(
    known: &Knowledge,
    method: &MethodRef,
    receiver: Kind,
    args: &[Kind],
) -> Result<Kind, u8>
    requires known { IsKnowledge known.now }
    requires receiver { Stands (all_of known.now) receiver }
    requires args { AllStand (all_of known.now) args.now }
    ensures { Comes (all_of known.now) (typing.offset_call_type (facts_of known.now) method.now
        (kind_at (all_of known.now) receiver) (map (kind_at (all_of known.now)) args.now)) result }
{
    let Some(sig) = signature_of(known, method) else {
        return Err(16);
    };
    if is_instance(known, receiver, &method.class) {
        called(known, sig, args)
    } else {
        Err(17)
    }
}

/// A call by name, of which the types say no more than what it is to answer; S16 is broken where that isn't known, S17
/// where the receiver is no object, and S18 by too many arguments.
pub fn named_call_kind(
    known: &Knowledge,
    answer: &ValueType,
    receiver: Kind,
    args: &[Kind],
) -> Result<Kind, u8>
    requires known { IsKnowledge known.now }
    requires receiver { Stands (all_of known.now) receiver }
    ensures { Comes (all_of known.now) (typing.named_call_type (facts_of known.now) answer.now
        (kind_at (all_of known.now) receiver) (map (kind_at (all_of known.now)) args.now)) result }
{
    let Some(kind) = kind_of(known, answer) else {
        return Err(16);
    };
    if !is_object(receiver) {
        return Err(17);
    }
    if args.len() <= MAX_PARAMETERS as usize {
        Ok(kind)
    } else {
        Err(18)
    }
}

// The place of a parent of the body's class.
fn parent_of(known: &Knowledge, at: &CodePlace, number: usize) -> Option<usize>
    requires known { IsKnowledge known.now }
    requires place { PlaceStands (all_of known.now) at.now }
    ensures is { key_of (all_of known.now) result ≡ parent_at (code_at (all_of known.now) at.now).class number }
    ensures stands { IfSome result (λ place. place < length (all_of known.now)) }
{
    let class = at.class?;
    let parents = decl_at(known, class).face.parents.as_slice();
    if number < parents.len() {
        match place_of(known, &parents[number]) {
            Some(place) => Some(place),
            None => unreachable!(),
        }
    } else {
        None
    }
}

/// A call of the method of a parent, by its place among those of the body's class; S16 is broken where there is no such
/// parent or method, S17 where the parent doesn't descend from the class of the reference, and S18 where the arguments
/// don't fit.
pub fn parent_call_kind(
    known: &Knowledge,
    at: &CodePlace,
    parent: usize,
    method: &MethodRef,
    args: &[Kind],
) -> Result<Kind, u8>
    requires known { IsKnowledge known.now }
    requires place { PlaceStands (all_of known.now) at.now }
    requires args { AllStand (all_of known.now) args.now }
    ensures { Comes (all_of known.now) (typing.parent_call_type (facts_of known.now) (code_at (all_of known.now) at.now)
        parent method.now (map (kind_at (all_of known.now)) args.now)) result }
{
    let Some(parent) = parent_of(known, at, parent) else {
        return Err(16);
    };
    let Some(sig) = signature_of(known, method) else {
        return Err(16);
    };
    if descends_from(known, parent, &method.class) {
        called(known, sig, args)
    } else {
        Err(17)
    }
}

// Whether a class is a proper ancestor of the body's.
fn is_proper(known: &Knowledge, at: &CodePlace, ancestor: &ClassKey) -> bool
    requires known { IsKnowledge known.now }
    requires place { PlaceStands (all_of known.now) at.now }
    ensures { result ≡ is_proper_at (facts_of known.now) (code_at (all_of known.now) at.now).class ancestor.now }
{
    match at.class {
        Some(class) => is_above(known, class, ancestor),
        None => false,
    }
}

fn is_above(known: &Knowledge, class: usize, ancestor: &ClassKey) -> bool
    requires known { IsKnowledge known.now }
    requires class { class < length (all_of known.now) }
    ensures { result ≡ (not (same_key ancestor.now (key_at (all_of known.now) class))
        && (facts_of known.now).is_a (key_at (all_of known.now) class) ancestor.now) }
{
    match place_of(known, ancestor) {
        Some(place) => place != class && is_below(known, class, place),
        None => false,
    }
}

/// A call of the method of all parents; S16 is broken where there is no such method, S18 where the arguments don't fit,
/// and S20 where it answers something or is of no proper ancestor of the body's class.
pub fn parents_call_kind(
    known: &Knowledge,
    at: &CodePlace,
    method: &MethodRef,
    args: &[Kind],
) -> Result<Kind, u8>
    requires known { IsKnowledge known.now }
    requires place { PlaceStands (all_of known.now) at.now }
    requires args { AllStand (all_of known.now) args.now }
    ensures { Comes (all_of known.now) (typing.parents_call_type (facts_of known.now) (code_at (all_of known.now) at.now)
        method.now (map (kind_at (all_of known.now)) args.now)) result }
{
    let Some(sig) = signature_of(known, method) else {
        return Err(16);
    };
    let kind = called(known, sig, args)?;
    if is_nothing(kind) && is_proper(known, at, owner(known, method).class) {
        Ok(kind)
    } else {
        Err(20)
    }
}
