//! Looks up classes of an interface by their keys, and their faces by places.

ghost use Rattle.som_compat.specs.Views.{classes_of, shown};
ghost use Rattle.som_model.specs.declared.key.ClassKey.TheVariants as keys;
ghost use Rattle.som_verify_classes.specs.Places.{Finds, class_of_place, key_at};
ghost use Rattle.som_verify_classes.specs.Plainly.{IsAmong};
ghost use Rattle.std.specs.Prelude.{◌≡◌, ◌+◌, ◌<◌, ◌≤◌, IfSome, length};

use crate::kernel::kernel_place;
use crate::names::find_name;
use som_model::{ClassFace, ClassKey, Module, Text};

/// The number of the kernel's classes, which stand before those of the interface.
pub const KERNEL_CLASSES: usize = 4;

/// The classes of an interface, and their places in the order of their names.
#[derive(Clone, Copy)]
pub struct Lookup<'a> {
    pub faces: &'a [ClassFace],
    pub order: &'a [u16],
}

impl<'a> Lookup<'a> {
    /// The place of a class, the kernel's counted first.
    pub fn place(&self, key: &ClassKey) -> Option<usize>
        ensures finds { Finds (length (classes_of self.now.faces.now)) (classes_of self.now.faces.now) key.now result }
        ensures below { IfSome result (λ place. place < length self.now.faces.now + 4) }
    {
        match key {
            ClassKey::Named { module: home, name } => self.named_place(*home, name),
            ClassKey::Derived { .. } => None,
            ClassKey::Proxy { .. } => None,
        }
    }

    fn named_place(&self, home: Module, name: &Text) -> Option<usize>
        ensures finds { Finds (length (classes_of self.now.faces.now)) (classes_of self.now.faces.now) (keys.Named home name.now) result }
        ensures below { IfSome result (λ place. place < length self.now.faces.now + 4) }
    {
        match home {
            Module::Kernel => kernel_place(name),
            Module::Library => match find_name(self.faces, self.order, name) {
                Some(place) => Some(place + KERNEL_CLASSES),
                None => None,
            },
            Module::Upper(_) => None,
            Module::Client => None,
        }
    }

    /// The place of a class that is known.
    pub fn known_place(&self, key: &ClassKey) -> usize
        requires { IsAmong (classes_of self.now.faces.now) key.now }
        ensures below { result < length self.now.faces.now + 4 }
        ensures within { result < length (classes_of self.now.faces.now) }
        ensures is { key_at (classes_of self.now.faces.now) result ≡ key.now }
    {
        match self.place(key) {
            Some(place) => place,
            None => 0,
        }
    }

    /// The face of the interface's class at a place.
    pub fn face(&self, place: usize) -> &'a ClassFace
        requires library { 4 ≤ place }
        requires below { place < length self.now.faces.now + 4 }
        ensures { class_of_place (classes_of self.now.faces.now) place ≡ shown result.now }
    {
        &self.faces[place - KERNEL_CLASSES]
    }
}
