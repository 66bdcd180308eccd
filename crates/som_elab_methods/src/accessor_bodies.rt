//! The bodies of accessors, which read or write one instance variable.

ghost use Rattle.som_elab_methods.specs.Accessors as spec;
ghost use Rattle.som_elab_methods.specs.Accessors.{access, accessor_body, accessors_of, body_of};
ghost use Rattle.som_elab_methods.specs.Tables.{accessed};
ghost use Rattle.som_model.specs.declared.class.Variable.{Variable as Kept};
ghost use Rattle.som_model.specs.declared.limits.TheConstants.{MAX_VARIABLES as LIMIT};
ghost use Rattle.som_sema_drafts.specs.Drafts.{plain_draft};
ghost use Rattle.som_sema_names.specs.Noted.{IsKnown};
ghost use Rattle.std.specs.Prelude.{◌≡◌, ◌≤◌, length, map};

use crate::accessors::{Accessor, accessor_named};
use som_model::{Body, Variable};
use som_sema_drafts::Draft;
use som_sema_names::Places;

/// The body of the accessor of a name, if the class has one.
pub fn body_named(
    accessors: &[Accessor],
    places: &Places,
    draft: &Draft,
    name: &[u8],
) -> Option<Body>
    requires variables { length draft.now.decl.variables ≤ LIMIT }
    requires accessors { map access accessors.now ≡ accessors_of draft.now.text.now }
    requires places { IsKnown (accessed 0 (map access accessors.now)) places.now }
    ensures { result ≡ body_of (plain_draft draft.now) name.now }
{
    match accessor_named(accessors, places, name) {
        None => None,
        Some(accessor) => Some(body(draft.decl.variables.as_slice(), accessor)),
    }
}

fn body(variables: &[Variable], accessor: &Accessor) -> Body
    requires { length variables.now ≤ LIMIT }
    ensures { result ≡ accessor_body variables.now (access accessor.now) }
{
    let place = place_of(variables, accessor.attribute);
    if accessor.sets {
        Body::Set(place)
    } else {
        Body::Get(place)
    }
}

fn place_of(variables: &[Variable], name: &[u8]) -> u8
    requires { length variables.now ≤ LIMIT }
    ensures { result ≡ spec.place_of (map (λ (v : Kept). v.name) variables.now) name.now }
{
    let mut place = 0;
    for variable in variables {
        if name == variable.name.as_slice() {
            return place;
        }
        place += 1;
    }
    place
}
