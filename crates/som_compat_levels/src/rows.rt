//! The parents and the metaclass of each class by places.

ghost use Rattle.som_compat_levels.specs.Standing.{AreStanding, classes_of};
ghost use Rattle.som_compat_levels.specs.Tables.{AreMetaclasses, IsPlaceOf};
ghost use Rattle.som_model.specs.Lists.{Mem};
ghost use Rattle.som_model.specs.declared.key.ClassKey.{ClassKey as Key};
ghost use Rattle.som_verify_classes.specs.Places.{IsRows, key_at};
ghost use Rattle.som_verify_classes.specs.Plainly.{IsAmong};
ghost use Rattle.std.specs.Prelude.{◌≡◌, ◌<◌, ℕ, IfOk, Some, length, map};

use crate::classes::PlacedClass;
use crate::finding::known_place;
use som_model::{ClassKey, List, NoMemory};
use std::alloc::Global;

/// The places of the parents of each class, in their order.
pub fn parent_rows(
    alloc: Global,
    classes: &[PlacedClass],
    order: &[usize],
) -> Result<Vec<List<usize>>, NoMemory>
    requires { AreStanding (classes_of classes.now) }
    ensures { IfOk result (λ rows. IsRows (classes_of classes.now) (length (classes_of classes.now)) rows.items) }
{
    let mut rows = Vec::new(alloc);
    for class in classes {
        let parents = class.face.parents.as_slice();
        rows.push(row_of(alloc, classes, order, parents)?)?;
    }
    Ok(rows)
}

fn row_of(
    alloc: Global,
    classes: &[PlacedClass],
    order: &[usize],
    parents: &[ClassKey],
) -> Result<List<usize>, NoMemory>
    requires { (k : Key) → Mem k parents.now → IsAmong (classes_of classes.now) k }
    ensures keys { IfOk result (λ row. map (key_at (classes_of classes.now)) row ≡ parents.now) }
    ensures within { IfOk result (λ row. (p : ℕ) → Mem p row → p < length (classes_of classes.now)) }
{
    let mut row = List::new(alloc);
    for parent in parents {
        row.push(known_place(classes, order, parent))?;
    }
    Ok(row)
}

/// The places of the metaclasses that the classes declare.
pub fn metaclass_places(
    alloc: Global,
    classes: &[PlacedClass],
    order: &[usize],
) -> Result<Vec<Option<usize>>, NoMemory>
    requires { AreStanding (classes_of classes.now) }
    ensures { IfOk result (λ places. AreMetaclasses (classes_of classes.now) places.items) }
{
    let mut places = Vec::new(alloc);
    for class in classes {
        places.push(metaclass_place(classes, order, &class.face.metaclass))?;
    }
    Ok(places)
}

fn metaclass_place(
    classes: &[PlacedClass],
    order: &[usize],
    key: &Option<ClassKey>,
) -> Option<usize>
    requires { (k : Key) → key.now ≡ Some k → IsAmong (classes_of classes.now) k }
    ensures { IsPlaceOf (classes_of classes.now) key.now result }
{
    match key {
        Some(key) => Some(known_place(classes, order, key)),
        None => None,
    }
}
