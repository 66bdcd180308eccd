//! Checks the bodies of classes (S14): one for each entry that is introduced, which fits its signature.

ghost use Rattle.som_model.specs.Class.{introduced};
ghost use Rattle.som_model.specs.Lists.{first};
ghost use Rattle.som_model.specs.Rules.{body_fits, s14};
ghost use Rattle.som_verify_classes.specs.Fitting.{bodies_from, takes};
ghost use Rattle.som_verify_classes.specs.Modules.{class_of, classes_of};
ghost use Rattle.som_verify_classes.specs.Told.{Tells};
ghost use Rattle.std.specs.Prelude.{◌≡◌, length, flat_map};

use som_model::{Body, Entry, Sig, ValueType, Variable};
use som_verify_classes::{Declared, VerifyFault, refusal};
use std::alloc::Global;

/// S14: there are as many bodies as introduced entries, and each fits its signature.
pub fn bodies_fit(alloc: Global, classes: &[Declared]) -> Result<(), VerifyFault>
    ensures { Tells (first (flat_map s14 (classes_of classes.now))) result }
{
    for class in classes {
        own_bodies_fit(alloc, class)?;
    }
    Ok(())
}

fn own_bodies_fit(alloc: Global, class: &Declared) -> Result<(), VerifyFault>
    ensures { Tells (first (s14 (class_of class.now))) result }
{
    let decl = class.decl;
    if decl.bodies.len() != number_introduced(decl.face.entries.as_slice()) {
        return Err(refusal(alloc, 14, decl, b"-"));
    }
    each_body_fits(alloc, class)
}

fn number_introduced(entries: &[Entry]) -> usize
    ensures { result ≡ length (introduced entries.now) }
{
    let mut number = 0;
    for entry in entries {
        if let Entry::Introduced { .. } = entry {
            number += 1;
        }
    }
    number
}

fn each_body_fits(alloc: Global, class: &Declared) -> Result<(), VerifyFault>
    ensures { Tells (first (bodies_from (class_of class.now) class.now.decl.now.face.entries class.now.decl.now.bodies)) result }
{
    let decl = class.decl;
    let mut bodies = decl.bodies.as_slice();
    for entry in decl.face.entries.as_slice() {
        if let Entry::Introduced { name, sig, .. } = entry {
            match bodies {
                [] => return Ok(()),
                [body, later @ ..] => {
                    if !fits(decl.variables.as_slice(), sig, body) {
                        return Err(refusal(alloc, 14, decl, name.as_slice()));
                    }
                    bodies = later;
                }
            }
        }
    }
    Ok(())
}

// Whether a body fits its signature.
fn fits(variables: &[Variable], sig: &Sig, body: &Body) -> bool
    ensures { result ≡ body_fits variables.now sig.now body.now }
{
    match body {
        Body::User(_) => true,
        Body::Get(place) => match variables.get(*place as usize) {
            None => false,
            Some(variable) => variable.kind.is(&sig.result) && sig.params.is_empty(),
        },
        Body::Set(place) => match variables.get(*place as usize) {
            None => false,
            Some(variable) => sets(variable, sig),
        },
    }
}

// Whether a method of this signature takes a value for the variable, and answers nothing.
fn sets(variable: &Variable, sig: &Sig) -> bool
    ensures { result ≡ takes variable.now.kind sig.now }
{
    match (&sig.result, sig.params.as_slice()) {
        (ValueType::Void, [kind]) => kind.is(&variable.kind),
        _ => false,
    }
}
