//! The numbers and positions of declared classes: each number is the class's place.

ghost use Rattle.som_model.specs.Lists.{Mem};
ghost use Rattle.som_model.specs.Loads.{keys_of};
ghost use Rattle.som_model.specs.declared.key.ClassKey.{ClassKey as Key};
ghost use Rattle.som_model.specs.declared.limits.TheConstants.{MAX_LAID_CLASSES};
ghost use Rattle.som_class_ids.specs.Classes.{AreDeclared, classes_of};
ghost use Rattle.som_class_ids.specs.Names.{AreNoted, face_names};
ghost use Rattle.som_class_ids.specs.Numbers.{ArePlaced, at};
ghost use Rattle.std.specs.Prelude.{◌≡◌, ◌+◌, ◌<◌, ◌≤◌, ℕ, IfNone, IfOk, IfSome, length, map};

use crate::keyed::Keyed;
use crate::names::{Names, find_named};
use crate::position::{Position, next_declared};
use som_model::{ClassKey, List, NoMemory};
use som_tables::ClassNo;
use std::alloc::Global;

/// The number of the declared class of a key, which is its place.
pub(crate) fn declared_number(names: &Names, classes: &[Keyed], key: &ClassKey) -> Option<ClassNo>
    requires noted { AreNoted (face_names classes.now) names.now }
    requires declared { AreDeclared (classes_of classes.now) }
    ensures some { IfSome result (λ n. (n < length classes.now) × (at (keys_of (classes_of classes.now)) n ≡ key.now)) }
    ensures none { IfNone result (Mem key.now (keys_of (classes_of classes.now)) → ⊥) }
{
    match key {
        ClassKey::Named { module: home, name } => find_named(names, classes, *home, name),
        ClassKey::Derived { .. } => None,
        ClassKey::Proxy { .. } => None,
    }
}

/// The number of a declared class.
pub(crate) fn number_of(names: &Names, classes: &[Keyed], key: &ClassKey) -> ClassNo
    requires noted { AreNoted (face_names classes.now) names.now }
    requires declared { AreDeclared (classes_of classes.now) }
    requires known { Mem key.now (keys_of (classes_of classes.now)) }
    ensures within { result < length classes.now }
    ensures key { at (keys_of (classes_of classes.now)) result ≡ key.now }
{
    match declared_number(names, classes, key) {
        Some(class) => class,
        None => unreachable!(),
    }
}

fn numbers_of(
    alloc: Global,
    names: &Names,
    classes: &[Keyed],
    keys: &[ClassKey],
) -> Result<List<ClassNo>, NoMemory>
    requires noted { AreNoted (face_names classes.now) names.now }
    requires declared { AreDeclared (classes_of classes.now) }
    requires known { (k : Key) → Mem k keys.now → Mem k (keys_of (classes_of classes.now)) }
    ensures within { IfOk result (λ ns. (n : ℕ) → Mem n ns → n < length classes.now) }
    ensures keys { IfOk result (λ ns. map (at (keys_of (classes_of classes.now))) ns ≡ keys.now) }
{
    let mut numbers = List::new(alloc);
    for key in keys {
        numbers.push(number_of(names, classes, key))?;
    }
    Ok(numbers)
}

/// The positions of the declared classes, each after those of its parents.
pub(crate) fn declared_positions(
    alloc: Global,
    names: &Names,
    classes: &[Keyed],
) -> Result<List<Position>, NoMemory>
    requires few { length classes.now ≤ MAX_LAID_CLASSES + 4 }
    requires noted { AreNoted (face_names classes.now) names.now }
    requires declared { AreDeclared (classes_of classes.now) }
    ensures placed { IfOk result (λ ps. ArePlaced (classes_of classes.now) (keys_of (classes_of classes.now)) ps) }
    ensures each { IfOk result (λ ps. length ps ≡ length classes.now) }
{
    let mut positions = List::new(alloc);
    for (place, class) in classes.iter().enumerate() {
        let parents = numbers_of(alloc, names, classes, class.decl.face.parents.as_slice())?;
        let position = next_declared(alloc, positions.as_slice(), parents, place as u32)?;
        positions.push(position)?;
    }
    Ok(positions)
}
