//! Types the bodies and overrides of classes, in order, and main.

ghost use Rattle.som_model.specs.Class.{Class};
ghost use Rattle.som_model.specs.Conforming.{block_breach, bodies_typed as all_typed, class_typed as typed_class, main_typed as typed_main, override_typed as typed_override};
ghost use Rattle.som_model.specs.Lists.{first};
ghost use Rattle.som_verify_classes.specs.Modules.{class_of, classes_of};
ghost use Rattle.som_verify_classes.specs.Told.{Tells};
ghost use Rattle.som_verify_types.specs.Bodies.{AllSigsKnown, SigsKnown, StandsAt, body_breaks};
ghost use Rattle.som_verify_forms.specs.Knowing.{IsKnowledge, all_of, sig_is_known};
ghost use Rattle.std.specs.Prelude.{◌≡◌, true, drop, flat_map};

use crate::statements::block_typed;
use som_model::{Block, Body, Entry, NoMemory, Override, Sig, Text, ValueType};
use som_verify_classes::{Broken, Declared, KERNEL_CLASSES, VerifyFault, breach};
use som_verify_forms::{
    CodePlace, Kind, Knowledge, TypeFault, kind_of, kinds_of, known_kind, signature_of,
};
use std::alloc::Global;

/// Each body of the classes from a place on is well typed.
pub fn bodies_typed(alloc: Global, known: &Knowledge, from: usize) -> Result<(), VerifyFault>
    requires known { IsKnowledge known.now }
    requires signatures { AllSigsKnown (all_of known.now) (classes_of known.now.classes.now) }
    ensures { Tells (first (flat_map (typed_class (all_of known.now)) (classes_of (drop from known.now.classes.now)))) result }
{
    let classes = known.classes;
    for place in from..classes.len() {
        class_typed(alloc, known, place + KERNEL_CLASSES, &classes[place])?;
    }
    Ok(())
}

// The bodies of introduced entries come before the overrides.
fn class_typed(
    alloc: Global,
    known: &Knowledge,
    place: usize,
    class: &Declared,
) -> Result<(), VerifyFault>
    requires known { IsKnowledge known.now }
    requires class { StandsAt (all_of known.now) place (class_of class.now) }
    requires signatures { SigsKnown (all_of known.now) (class_of class.now) }
    ensures { Tells (first (typed_class (all_of known.now) (class_of class.now))) result }
{
    introduced_typed(alloc, known, place, class)?;
    overrides_typed(alloc, known, place, class)
}

fn introduced_typed(
    alloc: Global,
    known: &Knowledge,
    place: usize,
    class: &Declared,
) -> Result<(), VerifyFault>
    requires known { IsKnowledge known.now }
    requires class { StandsAt (all_of known.now) place (class_of class.now) }
    requires signatures { SigsKnown (all_of known.now) (class_of class.now) }
    ensures { Tells (first (all_typed (all_of known.now) (class_of class.now) class.now.decl.now.face.entries class.now.decl.now.bodies)) result }
{
    let decl = class.decl;
    let mut bodies = decl.bodies.as_slice();
    for entry in decl.face.entries.as_slice() {
        let Entry::Introduced { name, sig, .. } = entry else {
            continue;
        };
        let [body, later @ ..] = bodies else {
            return Ok(());
        };
        body_typed(alloc, known, place, class, name, sig, body)?;
        bodies = later;
    }
    Ok(())
}

// Readers and writers of variables have no block.
fn body_typed(
    alloc: Global,
    known: &Knowledge,
    place: usize,
    class: &Declared,
    name: &Text,
    sig: &Sig,
    body: &Body,
) -> Result<(), VerifyFault>
    requires known { IsKnowledge known.now }
    requires class { StandsAt (all_of known.now) place (class_of class.now) }
    requires sig { sig_is_known (all_of known.now) sig.now ≡ true }
    ensures { Tells (first (body_breaks (all_of known.now) (class_of class.now) name.now sig.now body.now)) result }
{
    match body {
        Body::User(block) => method_typed(alloc, known, place, class, name, sig, block),
        Body::Get(_) => Ok(()),
        Body::Set(_) => Ok(()),
    }
}

fn overrides_typed(
    alloc: Global,
    known: &Knowledge,
    place: usize,
    class: &Declared,
) -> Result<(), VerifyFault>
    requires known { IsKnowledge known.now }
    requires class { StandsAt (all_of known.now) place (class_of class.now) }
    ensures { Tells (first (flat_map (typed_override (all_of known.now) (class_of class.now)) class.now.decl.now.overrides)) result }
{
    let decl = class.decl;
    for item in decl.overrides.as_slice() {
        override_typed(alloc, known, place, class, item)?;
    }
    Ok(())
}

// An override has the signature of the method that it replaces.
fn override_typed(
    alloc: Global,
    known: &Knowledge,
    place: usize,
    class: &Declared,
    item: &Override,
) -> Result<(), VerifyFault>
    requires known { IsKnowledge known.now }
    requires class { StandsAt (all_of known.now) place (class_of class.now) }
    ensures { Tells (first (typed_override (all_of known.now) (class_of class.now) item.now)) result }
{
    let method = &item.method;
    match signature_of(known, method) {
        None => Ok(()),
        Some(sig) => method_typed(alloc, known, place, class, &method.name, sig, &item.block),
    }
}

// The block of a method, where its parameters are the first locals.
fn method_typed(
    alloc: Global,
    known: &Knowledge,
    place: usize,
    class: &Declared,
    name: &Text,
    sig: &Sig,
    block: &Block,
) -> Result<(), VerifyFault>
    requires known { IsKnowledge known.now }
    requires class { StandsAt (all_of known.now) place (class_of class.now) }
    requires sig { sig_is_known (all_of known.now) sig.now ≡ true }
    ensures { Tells (first (block_breach (all_of known.now) (class_of class.now) name.now sig.now block.now)) result }
{
    let mut scope = kinds_of(alloc, known, sig.params.as_slice())?;
    let at = CodePlace {
        class: Some(place),
        result: known_kind(known, &sig.result),
    };
    match block_typed(alloc, known, &at, &mut scope, block) {
        Ok(()) => Ok(()),
        Err(TypeFault::Rule(rule)) => Err(breach(alloc, rule, class.decl, name.as_slice())?),
        Err(TypeFault::NoMemory) => Err(VerifyFault::NoMemory),
    }
}

/// The block of main is well typed.
pub fn main_typed(alloc: Global, known: &Knowledge, main: &Block) -> Result<(), VerifyFault>
    requires { IsKnowledge known.now }
    ensures { Tells (first (typed_main (all_of known.now) main.now)) result }
{
    let mut scope = Vec::new(alloc);
    let at = CodePlace {
        class: None,
        result: Kind::Void,
    };
    match block_typed(alloc, known, &at, &mut scope, main) {
        Ok(()) => Ok(()),
        Err(TypeFault::Rule(rule)) => Err(VerifyFault::Rule(Broken {
            rule,
            class: Text::from_slice(alloc, b"main")?,
            member: Text::from_slice(alloc, b"-")?,
        })),
        Err(TypeFault::NoMemory) => Err(VerifyFault::NoMemory),
    }
}
