//! Compares a newer interface with an older one, class by class and rule by rule, in fixed memory.

ghost use Rattle.som_compat.specs.Conditions.{Conforms};
ghost use Rattle.som_compat.specs.Told.{told_by};
ghost use Rattle.som_compat.specs.Views.{IsView, classes_of, interface, shown};
ghost use Rattle.som_model.specs.Compatible.{class_breaks, first_break, k2, k4, order_of};
ghost use Rattle.som_model.specs.Lists.{first};
ghost use Rattle.som_model.specs.declared.class.ClassFace.{ClassFace as Face};
ghost use Rattle.som_model.specs.declared.limits.TheConstants.{MAX_ENTRIES};
ghost use Rattle.std.specs.Prelude.{◌≡◌, ◌+◌, ◌<◌, ◌≤◌, ℕ, None, flat_map, length, map, option_copied, slice_get, slice_index_or};

use crate::ancestors::keeps_ancestors;
use crate::breach::Breach;
use crate::lookup::{KERNEL_CLASSES, Lookup};
use crate::metaclasses::keeps_metaclass;
use crate::names::{find_name, sort_by_name};
use crate::rows::Row;
use crate::signatures::keeps_signatures;
use crate::view::{MOST_CLASSES, View, ancestors_of, fill};
use som_model::{ClassFace, Interface, MAX_LIBRARY_CLASSES, Text};
use som_order::{entry_at, is_prefix, name_of};

/// The most classes of an interface.
const MOST_FACES: usize = MAX_LIBRARY_CLASSES as usize;

/// Whether a newer interface is compatible with an older one, and else what it breaks first: by the older
/// one's order of classes, then by rule, then by place. It takes no memory.
pub fn compatible<'a>(old: &'a Interface, new: &Interface) -> Result<(), Breach<'a>>
    requires old { Conforms old.now }
    requires new { Conforms new.now }
    ensures { told_by result ≡ first_break old.now new.now }
{
    let mut old_order = [0u16; MOST_FACES];
    let mut new_order = [0u16; MOST_FACES];
    let old_faces = old.classes.as_slice();
    let new_faces = new.classes.as_slice();
    sort_by_name(old_faces, &mut old_order);
    sort_by_name(new_faces, &mut new_order);
    let old_lookup = Lookup {
        faces: old_faces,
        order: &old_order[..old_faces.len()],
    };
    let new_lookup = Lookup {
        faces: new_faces,
        order: &new_order[..new_faces.len()],
    };
    compare(&old_lookup, &new_lookup, old_faces)
}

fn compare<'a, 'x>(
    old: &Lookup<'x>,
    new: &Lookup<'x>,
    classes: &'a [ClassFace],
) -> Result<(), Breach<'a>>
where
    'a: 'x,
    requires old { Conforms (interface old.now.faces.now) }
    requires new { Conforms (interface new.now.faces.now) }
    requires classes { old.now.faces.now ≡ classes.now }
    ensures { told_by result ≡ first (flat_map (class_breaks (classes_of old.now.faces.now) (classes_of new.now.faces.now)) (map shown classes.now)) }
{
    let mut old_rows = [Row::EMPTY; MOST_CLASSES];
    let mut new_rows = [Row::EMPTY; MOST_CLASSES];
    fill(old, &mut old_rows);
    fill(new, &mut new_rows);
    let old_view = View {
        lookup: *old,
        rows: &old_rows[..old.faces.len() + KERNEL_CLASSES],
    };
    let new_view = View {
        lookup: *new,
        rows: &new_rows[..new.faces.len() + KERNEL_CLASSES],
    };
    all_keep(&old_view, &new_view, classes)
}

fn all_keep<'a, 'x>(
    old: &View<'x>,
    new: &View<'x>,
    classes: &'a [ClassFace],
) -> Result<(), Breach<'a>>
where
    'a: 'x,
    requires old { IsView old.now }
    requires new { IsView new.now }
    requires classes { old.now.lookup.faces.now ≡ classes.now }
    ensures { told_by result ≡ first (flat_map (class_breaks (classes_of old.now.lookup.faces.now) (classes_of new.now.lookup.faces.now)) (map shown classes.now)) }
{
    for place in 0..classes.len() {
        class_keeps(old, new, place, class_at(classes, place))?;
    }
    Ok(())
}

fn class_at(classes: &[ClassFace], place: usize) -> &ClassFace
    requires { place < length classes.now }
    ensures { (d : Face) → slice_index_or classes.now place d ≡ result.now }
{
    &classes[place]
}

// The rules for one class, where they hold for the classes before it.
fn class_keeps<'a, 'x>(
    old: &View<'x>,
    new: &View<'x>,
    place: usize,
    class: &'a ClassFace,
) -> Result<(), Breach<'a>>
where
    'a: 'x,
    requires old { IsView old.now }
    requires new { IsView new.now }
    requires place { place < length old.now.lookup.faces.now }
    requires class { (d : Face) → slice_index_or old.now.lookup.faces.now place d ≡ class.now }
    requires before { (i : ℕ) (d : Face) → i < place →
        first (class_breaks (classes_of old.now.lookup.faces.now) (classes_of new.now.lookup.faces.now) (shown (slice_index_or old.now.lookup.faces.now i d))) ≡ None }
    ensures { told_by result ≡ first (class_breaks (classes_of old.now.lookup.faces.now) (classes_of new.now.lookup.faces.now) (shown class.now)) }
{
    match find_name(new.lookup.faces, new.lookup.order, &class.name) {
        None => Err(Breach {
            rule: 1,
            class: &class.name,
            name: None,
            place: 0,
        }),
        Some(other) => {
            let other = other + KERNEL_CLASSES;
            let face = new.lookup.face(other);
            keeps_version(class, face)?;
            let marks = ancestors_of(new, other);
            keeps_ancestors(old, &new.lookup, &marks, place, class)?;
            keeps_order(class, face)?;
            keeps_signatures(&old.lookup, &new.lookup, class, face)?;
            keeps_metaclass(new, &marks, class)
        }
    }
}

// K2: the major version is the same, and the new minor one isn't lower.
fn keeps_version<'a>(class: &'a ClassFace, other: &ClassFace) -> Result<(), Breach<'a>>
    ensures { told_by result ≡ first (k2 (shown class.now) (shown other.now)) }
{
    if class.major == other.major && class.minor <= other.minor {
        Ok(())
    } else {
        Err(Breach {
            rule: 2,
            class: &class.name,
            name: None,
            place: 0,
        })
    }
}

// K4: the old release order begins the new one.
fn keeps_order<'a>(class: &'a ClassFace, other: &ClassFace) -> Result<(), Breach<'a>>
    requires old { length class.now.entries ≤ MAX_ENTRIES }
    requires new { length other.now.entries ≤ MAX_ENTRIES }
    ensures { told_by result ≡ first (k4 (shown class.now) (shown other.now)) }
{
    match is_prefix(&class.entries, &other.entries) {
        None => Ok(()),
        Some(place) => Err(Breach {
            rule: 4,
            class: &class.name,
            name: entry_name_at(class, place),
            place: place as u32,
        }),
    }
}

fn entry_name_at(face: &ClassFace, place: u16) -> Option<&Text>
    ensures { option_copied result ≡ slice_get (order_of (shown face.now)) place }
{
    match entry_at(face, place) {
        Some(entry) => Some(name_of(entry)),
        None => None,
    }
}
