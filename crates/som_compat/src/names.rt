//! Sorts the places of classes by their names, and finds the place of a name by binary search.

ghost use Rattle.som_compat.specs.Finding.{FindsName, face_names};
ghost use Rattle.som_model.specs.declared.limits.TheConstants.{MAX_LIBRARY_CLASSES};
ghost use Rattle.std.specs.Prelude.{◌<◌, ◌≤◌, IfSome, length};

use som_model::{ClassFace, Text};

/// Puts the places of the classes in the order of their names. That they are in order is no clause: it only
/// makes looking up fast.
pub fn sort_by_name(faces: &[ClassFace], order: &mut [u16])
    requires long { length faces.now ≤ length order.old }
    requires few { length faces.now ≤ MAX_LIBRARY_CLASSES }
{
    for place in 0..faces.len() {
        order[place] = place as u16;
    }
    order[..faces.len()].sort_unstable_by(|one, other| name_of(faces, *one).cmp(name_of(
        faces, *other,
    )));
}

// The name of the class at a place; past the last there is none.
fn name_of(faces: &[ClassFace], place: u16) -> &[u8] {
    match faces.get(place as usize) {
        Some(face) => face.name.as_slice(),
        None => b"",
    }
}

/// The place of the class of a name. Where the places are in order, only a name that no class has is sought
/// among all.
pub fn find_name(faces: &[ClassFace], order: &[u16], name: &Text) -> Option<usize>
    ensures finds { FindsName (face_names faces.now) name.now result }
    ensures below { IfSome result (λ place. place < length faces.now) }
{
    let found = order.binary_search_by(|place| name_of(faces, *place).cmp(name.as_slice()));
    match found {
        Ok(at) => {
            let place = order[at] as usize;
            if place < faces.len() && faces[place].name.is(name.as_slice()) {
                Some(place)
            } else {
                find_among(faces, name)
            }
        }
        Err(_) => find_among(faces, name),
    }
}

fn find_among(faces: &[ClassFace], name: &Text) -> Option<usize>
    ensures finds { FindsName (face_names faces.now) name.now result }
    ensures below { IfSome result (λ place. place < length faces.now) }
{
    for place in 0..faces.len() {
        if faces[place].name.is(name.as_slice()) {
            return Some(place);
        }
    }
    None
}
