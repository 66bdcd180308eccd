//! Numbers the classes, methods and types in expressions, where a directory is known to have their names.

ghost use Rattle.som_image_encode.specs.FoundNames.{has_number, has_slot, kind_found};
ghost use Rattle.som_image_encode.specs.Numbering.{
  IsDirectory,
  kind_numbered,
  method_numbered,
  number_of,
};
ghost use Rattle.som_order.specs.Names.{texts};
ghost use Rattle.std.specs.Prelude.{◌≡◌, true};

use crate::lookup;
use indexmap::IndexSet;
use som_image_decode::Directory;
use som_image_fields::{WireMethod, WireType};
use som_model::{ClassKey, MethodRef, ValueType};

// The numbers and slots of the names in expressions and statements: what is found is there.

pub(crate) fn number_class(directory: &Directory, names: &IndexSet<&[u8]>, class: &ClassKey) -> u16
    requires directory { IsDirectory (texts names.now.keys) directory.now }
    requires found { has_number directory.now class.now ≡ true }
    ensures { result ≡ number_of directory.now.keys class.now }
{
    lookup::number_of(directory, names, class)
}

pub(crate) fn number_method(
    directory: &Directory,
    names: &IndexSet<&[u8]>,
    method: &MethodRef,
) -> WireMethod
    requires directory { IsDirectory (texts names.now.keys) directory.now }
    requires found { has_slot directory.now method.now ≡ true }
    ensures { result ≡ method_numbered directory.now method.now }
{
    lookup::number_method(directory, names, method)
}

pub(crate) fn number_kind(
    directory: &Directory,
    names: &IndexSet<&[u8]>,
    kind: &ValueType,
) -> WireType
    requires directory { IsDirectory (texts names.now.keys) directory.now }
    requires found { kind_found directory.now kind.now ≡ true }
    ensures { result ≡ kind_numbered directory.now.keys kind.now }
{
    lookup::number_kind(directory, names, kind)
}
