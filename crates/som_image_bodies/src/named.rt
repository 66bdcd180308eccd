//! What numbers stand for, behind pointers, as expressions and statements hold it.

ghost use Rattle.som_image_decode.specs.Naming.{key_at, kind_named, method_named, ranges_in};
ghost use Rattle.som_image_fields.specs.Spelling.{FitsKind, FitsMethod};
ghost use Rattle.std.specs.Prelude.{◌≡◌, ◌<◌, true, length, IfOk};

use som_image_decode::{Directory, key_of, name_kind};
use som_image_fields::{WireMethod, WireType};
use som_model::{Boxed, ClassKey, MethodRef, NoMemory, ValueType};
use std::alloc::Global;

/// The key of the class of a number.
pub(crate) fn name_class(
    alloc: Global,
    directory: &Directory,
    number: u16,
) -> Result<Boxed<ClassKey>, NoMemory>
    requires { number < length directory.now.keys }
    ensures { IfOk result (λ key. key ≡ key_at directory.now.keys number) }
{
    Boxed::new(alloc, key_of(alloc, &directory.keys, number)?)
}

/// The type that a type of an image stands for.
pub(crate) fn name_type(
    alloc: Global,
    directory: &Directory,
    kind: &WireType,
) -> Result<Boxed<ValueType>, NoMemory>
    requires { FitsKind (length directory.now.keys) true kind.now }
    ensures { IfOk result (λ named. named ≡ kind_named directory.now.keys kind.now) }
{
    Boxed::new(alloc, name_kind(alloc, &directory.keys, kind)?)
}

/// The name of a method.
pub(crate) fn name_method(
    alloc: Global,
    directory: &Directory,
    method: WireMethod,
) -> Result<Boxed<MethodRef>, NoMemory>
    requires { FitsMethod (ranges_in directory.now) method }
    ensures { IfOk result (λ named. named ≡ method_named directory.now method) }
{
    Boxed::new(alloc, directory.method(alloc, method)?)
}
