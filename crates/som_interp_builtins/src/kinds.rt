//! The kernel's bodies by the names of their methods.

ghost use Rattle.som_interp_builtins.specs.Kinds.{body_shown};
ghost use Rattle.som_semantics.specs.Invoked.{kernel_body as kernel_body_in, table};
ghost use Rattle.std.specs.Prelude.{◌≡◌, drop};
ghost use Rattle.std.specs.Str.{bytes_eq};

use som_model::Text;

/// What a body of the kernel's that only asks is asked.
#[derive(Clone, Copy)]
pub enum Asking {
    GetClass,
    GetClassName,
    IsA,
    IsInstanceOf,
    RespondsTo,
    DispatchName,
    GetName,
    DescendedFrom,
    SupportsMethod,
    CheckVersion,
}

/// A body of the kernel's: it does nothing, or frees, makes or finds a class, or asks.
#[derive(Clone, Copy)]
pub enum KernelBody {
    Idle,
    Free,
    New,
    NewNoInit,
    FindClass,
    Asks(Asking),
}

/// The kernel's body for the name of a method.
pub fn kernel_body(name: &Text) -> KernelBody
    ensures { body_shown result ≡ kernel_body_in table name.now }
{
    let name = name.as_slice();
    if is(b"somInit", name) {
        KernelBody::Idle
    } else if is(b"somUninit", name) {
        KernelBody::Idle
    } else if is(b"somFree", name) {
        KernelBody::Free
    } else {
        object_body(name)
    }
}

// The kernel's body for the name of a method that any object can be asked.
fn object_body(name: &[u8]) -> KernelBody
    ensures { body_shown result ≡ kernel_body_in (drop 3 table) name.now }
{
    if is(b"somGetClass", name) {
        KernelBody::Asks(Asking::GetClass)
    } else if is(b"somGetClassName", name) {
        KernelBody::Asks(Asking::GetClassName)
    } else if is(b"somIsA", name) {
        KernelBody::Asks(Asking::IsA)
    } else if is(b"somIsInstanceOf", name) {
        KernelBody::Asks(Asking::IsInstanceOf)
    } else if is(b"somRespondsTo", name) {
        KernelBody::Asks(Asking::RespondsTo)
    } else if is(b"somDispatchName", name) {
        KernelBody::Asks(Asking::DispatchName)
    } else {
        class_body(name)
    }
}

// The kernel's body for the name of a method that the kernel's other classes introduce.
fn class_body(name: &[u8]) -> KernelBody
    ensures { body_shown result ≡ kernel_body_in (drop 9 table) name.now }
{
    if is(b"somNew", name) {
        KernelBody::New
    } else if is(b"somNewNoInit", name) {
        KernelBody::NewNoInit
    } else if is(b"somGetName", name) {
        KernelBody::Asks(Asking::GetName)
    } else if is(b"somDescendedFrom", name) {
        KernelBody::Asks(Asking::DescendedFrom)
    } else if is(b"somSupportsMethod", name) {
        KernelBody::Asks(Asking::SupportsMethod)
    } else if is(b"somCheckVersion", name) {
        KernelBody::Asks(Asking::CheckVersion)
    } else if is(b"somFindClass", name) {
        KernelBody::FindClass
    } else {
        KernelBody::Idle
    }
}

fn is(word: &[u8], name: &[u8]) -> bool
    ensures { result ≡ bytes_eq word.now name.now }
{
    word == name
}
