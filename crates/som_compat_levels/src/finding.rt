//! Finds the place of a class by its key, by binary search over the places in the order of the keys.

ghost use Rattle.som_compat_levels.specs.Standing.{classes_of};
ghost use Rattle.som_model.specs.Keys.{same_module};
ghost use Rattle.som_model.specs.declared.key.ClassKey.TheVariants as keys;
ghost use Rattle.som_verify_classes.specs.Places.{Finds, key_at};
ghost use Rattle.som_verify_classes.specs.Plainly.{IsAmong};
ghost use Rattle.std.specs.Prelude.{◌≡◌, ◌↔◌, ◌<◌, IfSome, IsTrue, length};

use crate::classes::PlacedClass;
use som_model::{ClassKey, Module, NoMemory, Text};
use std::alloc::Global;
use std::cmp::Ordering;

/// The places of classes in the order of their keys. That they are in order is no clause: it only makes
/// finding fast.
pub fn sorted_places(alloc: Global, classes: &[PlacedClass]) -> Result<Vec<usize>, NoMemory> {
    let mut order = Vec::new(alloc);
    for place in 0..classes.len() {
        order.push(place)?;
    }
    order.sort_unstable_by(|one, other| by_places(classes, *one, *other));
    Ok(order)
}

fn by_places(classes: &[PlacedClass], one: usize, other: usize) -> Ordering {
    match classes.get(other) {
        Some(class) => by_key(classes, one, class.module, class.face.name.as_slice()),
        None => Ordering::Less,
    }
}

// How the key of the class at a place stands to another key.
fn by_key(classes: &[PlacedClass], place: usize, home: Module, name: &[u8]) -> Ordering {
    match classes.get(place) {
        Some(class) => match height(class.module).cmp(&height(home)) {
            Ordering::Equal => class.face.name.as_slice().cmp(name),
            other => other,
        },
        None => Ordering::Less,
    }
}

// The order of modules: the kernel, the library, the levels above it, the client.
fn height(module: Module) -> u16 {
    match module {
        Module::Kernel => 0,
        Module::Library => 1,
        Module::Upper(level) => level as u16 + 2,
        Module::Client => 1000,
    }
}

/// The place of the class of a module and name. Where the places are in order, only a key that no class has
/// is sought among all.
pub fn find_class(
    classes: &[PlacedClass],
    order: &[usize],
    home: Module,
    name: &Text,
) -> Option<usize>
    ensures finds { Finds (length (classes_of classes.now)) (classes_of classes.now) (keys.Named home name.now) result }
    ensures below { IfSome result (λ place. place < length classes.now) }
{
    let found = order.binary_search_by(|place| by_key(classes, *place, home, name.as_slice()));
    match found {
        Ok(at) => {
            let place = order[at];
            if place < classes.len() && is_class(classes, place, home, name) {
                Some(place)
            } else {
                find_among(classes, home, name)
            }
        }
        Err(_) => find_among(classes, home, name),
    }
}

fn find_among(classes: &[PlacedClass], home: Module, name: &Text) -> Option<usize>
    ensures finds { Finds (length (classes_of classes.now)) (classes_of classes.now) (keys.Named home name.now) result }
    ensures below { IfSome result (λ place. place < length classes.now) }
{
    for place in 0..classes.len() {
        if is_class(classes, place, home, name) {
            return Some(place);
        }
    }
    None
}

// Whether the class at a place has the module and the name.
fn is_class(classes: &[PlacedClass], place: usize, home: Module, name: &Text) -> bool
    requires { place < length classes.now }
    ensures { IsTrue result ↔ (key_at (classes_of classes.now) place ≡ keys.Named home name.now) }
{
    let class = &classes[place];
    is_module(class.module, home) && class.face.name.is(name.as_slice())
}

fn is_module(home: Module, other: Module) -> bool
    ensures { result ≡ same_module home other }
{
    home == other
}

/// The place of the class of a key.
pub fn find_key(classes: &[PlacedClass], order: &[usize], key: &ClassKey) -> Option<usize>
    ensures finds { Finds (length (classes_of classes.now)) (classes_of classes.now) key.now result }
    ensures below { IfSome result (λ place. place < length classes.now) }
{
    match key {
        ClassKey::Named { module: home, name } => find_class(classes, order, *home, name),
        ClassKey::Derived { .. } => None,
        ClassKey::Proxy { .. } => None,
    }
}

/// The place of a class that is known.
pub fn known_place(classes: &[PlacedClass], order: &[usize], key: &ClassKey) -> usize
    requires { IsAmong (classes_of classes.now) key.now }
    ensures below { result < length classes.now }
    ensures is { key_at (classes_of classes.now) result ≡ key.now }
{
    match find_key(classes, order, key) {
        Some(place) => place,
        None => 0,
    }
}
