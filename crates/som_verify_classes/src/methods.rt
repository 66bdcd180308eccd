//! Resolves a method by a class and a name to its owner, the class that introduces it.

ghost use Rattle.som_model.specs.Kernel.{kernel_interface};
ghost use Rattle.som_model.specs.Lists.{first};
ghost use Rattle.som_model.specs.Owner.{owner};
ghost use Rattle.som_model.specs.Rules.{s9};
ghost use Rattle.som_order.specs.Names.{texts};
ghost use Rattle.som_verify_classes.specs.Inherited.{method_of};
ghost use Rattle.som_verify_classes.specs.Modules.{classes_of};
ghost use Rattle.som_verify_classes.specs.Places.{IsTable, with_kernel};
ghost use Rattle.std.specs.Prelude.{◌≡◌, flat_map, None};

use crate::entries::{entries_at, moved_to};
use crate::table::{KERNEL_CLASSES, find_class};
use crate::types::Declared;
use indexmap::IndexSet;
use som_model::{ClassFace, ClassKey, MethodRef, Text};

/// A method by a class and a name.
#[derive(Clone, Copy)]
pub struct Method<'a> {
    pub class: &'a ClassKey,
    pub name: &'a Text,
}

/// The method as the class has it that introduces it.
pub fn owner_of<'a>(
    table: &IndexSet<&[u8]>,
    kernel: &'a [ClassFace],
    classes: &[Declared<'a>],
    method: &'a MethodRef,
) -> Method<'a>
    requires table { IsTable (classes_of classes.now) (texts table.now.keys) }
    requires kernel { kernel.now ≡ kernel_interface.classes }
    requires moved { first (flat_map (s9 (with_kernel (classes_of classes.now))) (classes_of classes.now)) ≡ None }
    ensures { method_of result ≡ owner (with_kernel (classes_of classes.now)) method.now }
{
    let name = &method.name;
    match find_class(
        table,
        classes,
        &method.class,
        classes.len() + KERNEL_CLASSES,
    ) {
        None => Method {
            class: &method.class,
            name,
        },
        Some(place) => match moved_to(entries_at(kernel, classes, place), name) {
            None => Method {
                class: &method.class,
                name,
            },
            Some(to) => Method { class: to, name },
        },
    }
}
