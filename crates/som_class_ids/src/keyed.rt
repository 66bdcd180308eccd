//! A declared class with its key.

ghost use Rattle.std.specs.Prelude.{◌≡◌, ◌<◌, Some, length, slice_get};

use som_model::{ClassDecl, ClassKey};
use som_tables::ClassNo;

/// A declared class and its key.
#[derive(Drop)]
pub struct Keyed {
    pub key: ClassKey,
    pub decl: ClassDecl,
}

/// The class at a number.
pub(crate) fn class_at(classes: &[Keyed], class: ClassNo) -> &Keyed
    requires { class < length classes.now }
    ensures { slice_get classes.now class ≡ Some result.now }
{
    &classes[class.number() as usize]
}
