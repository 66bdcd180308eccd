//! Name resolution in a body: locals, instance variables and parents to their places.

ghost use Rattle.som_model.specs.Keys.{same_key};
ghost use Rattle.som_model.specs.Lists.{place_from};
ghost use Rattle.som_model.specs.declared.class.Variable.{Variable as Slot};
ghost use Rattle.som_model.specs.declared.limits.TheConstants.{MAX_LOCALS, MAX_PARENTS, MAX_VARIABLES};
ghost use Rattle.som_elab_body.specs.Code.{ClassFits};
ghost use Rattle.som_elab_body.specs.Forms.{local_place};
ghost use Rattle.som_elab_body.specs.Methods as spec;
ghost use Rattle.som_verify_forms.specs.Kinds.{PlaceStands, code_at};
ghost use Rattle.som_verify_forms.specs.Knowing.{IsKnowledge, all_of};
ghost use Rattle.std.specs.Prelude.{◌≡◌, ◌<◌, ◌≤◌, length, IfSome};
ghost use Rattle.std.specs.Str.{bytes_eq};

use crate::local::Local;
use som_model::{ClassKey, Variable};
use som_verify_forms::{CodePlace, Knowledge, decl_at};

/// The place of a parameter or local by its name.
pub fn local_of(locals: &[Local], name: &[u8]) -> Option<u16>
    requires { length locals.now ≤ MAX_LOCALS }
    ensures is { result ≡ local_place locals.now name.now }
    ensures within { IfSome result (λ place. place < length locals.now) }
{
    for (place, local) in locals.iter().enumerate() {
        if name == local.name {
            return Some(place as u16);
        }
    }
    None
}

/// The place of a variable of the body's class.
pub fn variable_place(known: &Knowledge, at: &CodePlace, name: &[u8]) -> Option<u8>
    requires known { IsKnowledge known.now }
    requires place { PlaceStands (all_of known.now) at.now }
    requires fits { ClassFits (all_of known.now) at.now.class }
    ensures { result ≡ spec.variable_place (code_at (all_of known.now) at.now).class name.now }
{
    match at.class {
        None => None,
        Some(class) => place_of_variable(decl_at(known, class).variables.as_slice(), name),
    }
}

fn place_of_variable(variables: &[Variable], name: &[u8]) -> Option<u8>
    requires { length variables.now ≤ MAX_VARIABLES }
    ensures { result ≡ place_from 0 (λ (v : Slot). bytes_eq v.name name.now) variables.now }
{
    for (place, variable) in variables.iter().enumerate() {
        if variable.name.is(name) {
            return Some(place as u8);
        }
    }
    None
}

/// The place of a class among the parents of the body's class.
pub fn parent_place(known: &Knowledge, at: &CodePlace, parent: &ClassKey) -> Option<u8>
    requires known { IsKnowledge known.now }
    requires place { PlaceStands (all_of known.now) at.now }
    requires fits { ClassFits (all_of known.now) at.now.class }
    ensures { result ≡ spec.parent_place (code_at (all_of known.now) at.now).class parent.now }
{
    match at.class {
        None => None,
        Some(class) => place_of_parent(decl_at(known, class).face.parents.as_slice(), parent),
    }
}

fn place_of_parent(parents: &[ClassKey], parent: &ClassKey) -> Option<u8>
    requires { length parents.now ≤ MAX_PARENTS }
    ensures { result ≡ place_from 0 (same_key parent.now) parents.now }
{
    for (place, other) in parents.iter().enumerate() {
        if parent.is(other) {
            return Some(place as u8);
        }
    }
    None
}
