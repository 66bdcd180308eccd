//! Looks up numbers in a directory: that of a class by its key, and the slot of a method by its name.

ghost use Rattle.som_model.specs.Lists.{Mem};
ghost use Rattle.som_model.specs.declared.limits.TheConstants.{MAX_ENTRIES};
ghost use Rattle.som_image_encode.specs.Numbering.{
  AreNamed,
  IsDeclared,
  IsDirectory,
  IsKnown,
  MethodKnown,
  class_names,
  key_name,
  kind_numbered,
  method_numbered,
  number_of,
  slot_of,
};
ghost use Rattle.som_order.specs.Names.{texts};
ghost use Rattle.std.specs.Prelude.{◌≡◌, ◌≤◌, length, IfOk};

use indexmap::IndexSet;
use som_image_decode::Directory;
use som_image_fields::{WireMethod, WireType};
use som_model::{ClassKey, List, MethodRef, NoMemory, Text, ValueType};
use som_order::{find_name, note_name};
use std::alloc::Global;

/// The names of a directory's classes, by which the number of each is looked up once.
pub fn class_names(alloc: Global, directory: &Directory) -> Result<IndexSet<&[u8]>, NoMemory>
    requires { AreNamed directory.now }
    ensures { IfOk result (λ names. texts names.keys ≡ class_names directory.now) }
{
    let mut names = IndexSet::new(alloc);
    for key in directory.keys.as_slice() {
        let _is_new = note_name(&mut names, name_of(key))?;
    }
    Ok(names)
}

/// The number of a class that is there.
pub fn number_of(directory: &Directory, names: &IndexSet<&[u8]>, key: &ClassKey) -> u16
    requires directory { IsDirectory (texts names.now.keys) directory.now }
    requires known { Mem key.now directory.now.keys }
    ensures { result ≡ number_of directory.now.keys key.now }
{
    match key {
        ClassKey::Named { name, .. } => match find_name(names, name.as_slice()) {
            Some(place) => place as u16,
            None => unreachable!(),
        },
        ClassKey::Derived { .. } => unreachable!(),
        ClassKey::Proxy { .. } => unreachable!(),
    }
}

/// The number and the slot of a method that is there.
pub fn number_method(
    directory: &Directory,
    names: &IndexSet<&[u8]>,
    method: &MethodRef,
) -> WireMethod
    requires directory { IsDirectory (texts names.now.keys) directory.now }
    requires known { MethodKnown directory.now method.now }
    ensures { result ≡ method_numbered directory.now method.now }
{
    let class = number_of(directory, names, &method.class);
    let slot = slot_of(&directory.slots.as_slice()[class as usize], &method.name);
    WireMethod { class, slot }
}

/// The type of an image that stands for a type whose class is there.
pub fn number_kind(directory: &Directory, names: &IndexSet<&[u8]>, kind: &ValueType) -> WireType
    requires directory { IsDirectory (texts names.now.keys) directory.now }
    requires known { IsKnown directory.now.keys kind.now }
    ensures { result ≡ kind_numbered directory.now.keys kind.now }
{
    match kind {
        ValueType::Void => WireType::Void,
        ValueType::Long => WireType::Long,
        ValueType::Boolean => WireType::Boolean,
        ValueType::Str => WireType::Str,
        ValueType::Class(key) => WireType::Class(number_of(directory, names, key)),
    }
}

fn name_of(key: &ClassKey) -> &[u8]
    requires { IsDeclared key.now }
    ensures { result.now ≡ key_name key.now }
{
    match key {
        ClassKey::Named { name, .. } => name.as_slice(),
        ClassKey::Derived { .. } => unreachable!(),
        ClassKey::Proxy { .. } => unreachable!(),
    }
}

/// The slot of a name that is there.
fn slot_of(names: &List<Text>, name: &Text) -> u16
    requires few { length names.now ≤ MAX_ENTRIES }
    requires known { Mem name.now names.now }
    ensures { result ≡ slot_of names.now name.now }
{
    let names = names.as_slice();
    for slot in 0..names.len() {
        if names[slot].is(name.as_slice()) {
            return slot as u16;
        }
    }
    unreachable!()
}
