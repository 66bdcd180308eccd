//! Looks up in a directory what a number stands for: a class, a type, or a method.

ghost use Rattle.som_image_decode.specs.Naming.{key_at, kind_named, method_named, ranges_in};
ghost use Rattle.som_image_fields.specs.Spelling.{FitsKind, FitsMethod};
ghost use Rattle.std.specs.Prelude.{◌≡◌, ◌<◌, true, length, IfOk};

use crate::Directory;
use som_image_fields::{WireMethod, WireType};
use som_model::{ClassKey, List, MethodRef, NoMemory, ValueType};
use std::alloc::Global;

/// The key of the class of a number.
pub fn key_of(alloc: Global, keys: &List<ClassKey>, number: u16) -> Result<ClassKey, NoMemory>
    requires { number < length keys.now }
    ensures { IfOk result (λ key. key ≡ key_at keys.now number) }
{
    keys.as_slice()[number as usize].copy(alloc)
}

/// The type that a type of an image stands for.
pub fn name_kind(
    alloc: Global,
    keys: &List<ClassKey>,
    kind: &WireType,
) -> Result<ValueType, NoMemory>
    requires { FitsKind (length keys.now) true kind.now }
    ensures { IfOk result (λ named. named ≡ kind_named keys.now kind.now) }
{
    match *kind {
        WireType::Void => Ok(ValueType::Void),
        WireType::Long => Ok(ValueType::Long),
        WireType::Boolean => Ok(ValueType::Boolean),
        WireType::Str => Ok(ValueType::Str),
        WireType::Class(number) => Ok(ValueType::Class(key_of(alloc, keys, number)?)),
    }
}

impl Directory {
    /// The name of a method.
    pub fn method(&self, alloc: Global, method: WireMethod) -> Result<MethodRef, NoMemory>
        requires { FitsMethod (ranges_in self.now) method }
        ensures { IfOk result (λ named. named ≡ method_named self.now method) }
    {
        let names = &self.slots.as_slice()[method.class as usize];
        Ok(MethodRef {
            class: key_of(alloc, &self.keys, method.class)?,
            name: names.as_slice()[method.slot as usize].copy(alloc)?,
        })
    }
}
