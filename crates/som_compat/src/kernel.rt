//! The signatures that the kernel's classes introduce, by class and name, and whether two are equal.

ghost use Rattle.som_compat.specs.Finding.{FindsName};
ghost use Rattle.som_compat.specs.KernelSigs.{sig_of_kernel, told_sig, type_of};
ghost use Rattle.som_model.specs.Class.{entry_of, introduced_sig};
ghost use Rattle.som_model.specs.Kernel.{before_after_face, class_face, class_mgr_face, object_face, kernel, kernel_key};
ghost use Rattle.som_model.specs.Keys.{same_key};
ghost use Rattle.som_model.specs.Rules.{name_of};
ghost use Rattle.som_model.specs.Same.{same_list, same_sig, same_type};
ghost use Rattle.som_verify_classes.specs.Places.{face_at};
ghost use Rattle.std.specs.Prelude.{◌≡◌, ◌<◌, [], map};
ghost use Rattle.std.specs.Str.{bytes_eq};

use som_model::{ClassKey, Module, Sig, Text, ValueType};

/// A type in the signature of one of the kernel's methods.
#[derive(Clone, Copy)]
pub enum KernelType {
    Void,
    Long,
    Boolean,
    Str,
    Object,
    Class,
}

/// The signature of one of the kernel's methods.
#[derive(Clone, Copy)]
pub struct KernelSig {
    pub result: KernelType,
    pub params: &'static [KernelType],
}

// Whether a text is the one that is expected.
fn named(expected: &[u8], name: &Text) -> bool
    ensures { result ≡ bytes_eq expected.now name.now }
{
    expected == name.as_slice()
}

// A signature without parameters.
fn plain(answer: KernelType) -> KernelSig
    ensures { sig_of_kernel result ≡ record { result = type_of answer; params = [] } }
{
    KernelSig {
        result: answer,
        params: &[],
    }
}

/// The signature that SOMObject introduces for a name.
pub fn object_sig(name: &Text) -> Option<KernelSig>
    ensures { told_sig result ≡ introduced_sig (entry_of object_face.entries name.now) }
{
    if named(b"somInit", name) || named(b"somUninit", name) || named(b"somFree", name) {
        return Some(plain(KernelType::Void));
    }
    if named(b"somGetClass", name) {
        return Some(plain(KernelType::Class));
    }
    if named(b"somGetClassName", name) {
        return Some(plain(KernelType::Str));
    }
    if named(b"somIsA", name) || named(b"somIsInstanceOf", name) {
        return Some(KernelSig {
            result: KernelType::Boolean,
            params: &[KernelType::Class],
        });
    }
    if named(b"somRespondsTo", name) {
        return Some(KernelSig {
            result: KernelType::Boolean,
            params: &[KernelType::Str],
        });
    }
    if named(b"somDispatchName", name) {
        return Some(KernelSig {
            result: KernelType::Str,
            params: &[KernelType::Str],
        });
    }
    None
}

/// The signature that SOMClass introduces for a name.
pub fn class_sig(name: &Text) -> Option<KernelSig>
    ensures { told_sig result ≡ introduced_sig (entry_of class_face.entries name.now) }
{
    if named(b"somNew", name) || named(b"somNewNoInit", name) {
        return Some(plain(KernelType::Object));
    }
    if named(b"somGetName", name) {
        return Some(plain(KernelType::Str));
    }
    if named(b"somDescendedFrom", name) {
        return Some(KernelSig {
            result: KernelType::Boolean,
            params: &[KernelType::Class],
        });
    }
    if named(b"somSupportsMethod", name) {
        return Some(KernelSig {
            result: KernelType::Boolean,
            params: &[KernelType::Str],
        });
    }
    if named(b"somCheckVersion", name) {
        return Some(KernelSig {
            result: KernelType::Boolean,
            params: &[KernelType::Long, KernelType::Long],
        });
    }
    None
}

/// The signature that SOMClassMgr introduces for a name.
pub fn class_mgr_sig(name: &Text) -> Option<KernelSig>
    ensures { told_sig result ≡ introduced_sig (entry_of class_mgr_face.entries name.now) }
{
    if named(b"somFindClass", name) {
        return Some(KernelSig {
            result: KernelType::Class,
            params: &[KernelType::Str, KernelType::Long, KernelType::Long],
        });
    }
    None
}

/// The signature that SOMMBeforeAfter introduces for a name.
pub fn before_after_sig(name: &Text) -> Option<KernelSig>
    ensures { told_sig result ≡ introduced_sig (entry_of before_after_face.entries name.now) }
{
    if named(b"sommBeforeMethod", name) || named(b"sommAfterMethod", name) {
        return Some(KernelSig {
            result: KernelType::Void,
            params: &[KernelType::Object, KernelType::Str],
        });
    }
    None
}

/// The signature that the kernel's class at a place introduces for a name.
pub fn kernel_sig(place: usize, name: &Text) -> Option<KernelSig>
    requires { place < 4 }
    ensures { told_sig result ≡ introduced_sig (entry_of (face_at kernel place).entries name.now) }
{
    match place {
        0 => object_sig(name),
        1 => class_sig(name),
        2 => class_mgr_sig(name),
        _ => before_after_sig(name),
    }
}

/// The place of the kernel's class of a name.
pub fn kernel_place(name: &Text) -> Option<usize>
    ensures { FindsName (map name_of kernel) name.now result }
{
    if named(b"SOMObject", name) {
        Some(0)
    } else if named(b"SOMClass", name) {
        Some(1)
    } else if named(b"SOMClassMgr", name) {
        Some(2)
    } else if named(b"SOMMBeforeAfter", name) {
        Some(3)
    } else {
        None
    }
}

// Whether a type is this one of the kernel's.
fn is_type(kind: &ValueType, other: KernelType) -> bool
    ensures { result ≡ same_type kind.now (type_of other) }
{
    match (kind, other) {
        (ValueType::Void, KernelType::Void) => true,
        (ValueType::Long, KernelType::Long) => true,
        (ValueType::Boolean, KernelType::Boolean) => true,
        (ValueType::Str, KernelType::Str) => true,
        (ValueType::Class(key), KernelType::Object) => is_kernel_class(key, b"SOMObject"),
        (ValueType::Class(key), KernelType::Class) => is_kernel_class(key, b"SOMClass"),
        _ => false,
    }
}

// Whether a key is that of the kernel's class of a name.
fn is_kernel_class(key: &ClassKey, expected: &[u8]) -> bool
    ensures { result ≡ same_key key.now (kernel_key expected.now) }
{
    match key {
        ClassKey::Named {
            module: Module::Kernel,
            name,
        } => name.is(expected),
        _ => false,
    }
}

/// Whether a signature is this one of the kernel's.
pub fn is_kernel_sig(sig: &Sig, other: KernelSig) -> bool
    ensures { result ≡ same_sig sig.now (sig_of_kernel other) }
{
    is_type(&sig.result, other.result) && are_types(sig.params.as_slice(), other.params)
}

/// Whether one of the kernel's signatures is this one.
pub fn is_sig_of(kernel: KernelSig, sig: &Sig) -> bool
    ensures { result ≡ same_sig (sig_of_kernel kernel) sig.now }
{
    is_kernel_sig(sig, kernel)
}

fn are_types(kinds: &[ValueType], others: &[KernelType]) -> bool
    ensures { result ≡ same_list same_type kinds.now (map type_of others.now) }
{
    let mut kinds = kinds;
    let mut others = others;
    while let [kind, later_kinds @ ..] = kinds {
        match others {
            [] => return false,
            [other, later_others @ ..] => {
                if !is_type(kind, *other) {
                    return false;
                }
                kinds = later_kinds;
                others = later_others;
            }
        }
    }
    others.is_empty()
}

/// Whether two signatures of the kernel's are one.
pub fn are_one(a: KernelSig, b: KernelSig) -> bool
    ensures { result ≡ same_sig (sig_of_kernel a) (sig_of_kernel b) }
{
    is_one_type(a.result, b.result) && are_one_types(a.params, b.params)
}

fn is_one_type(a: KernelType, b: KernelType) -> bool
    ensures { result ≡ same_type (type_of a) (type_of b) }
{
    match (a, b) {
        (KernelType::Void, KernelType::Void) => true,
        (KernelType::Long, KernelType::Long) => true,
        (KernelType::Boolean, KernelType::Boolean) => true,
        (KernelType::Str, KernelType::Str) => true,
        (KernelType::Object, KernelType::Object) => true,
        (KernelType::Class, KernelType::Class) => true,
        (KernelType::Object, KernelType::Class) => false,
        (KernelType::Class, KernelType::Object) => false,
        _ => false,
    }
}

fn are_one_types(a: &[KernelType], b: &[KernelType]) -> bool
    ensures { result ≡ same_list same_type (map type_of a.now) (map type_of b.now) }
{
    let mut kinds = a;
    let mut others = b;
    while let [kind, later_kinds @ ..] = kinds {
        match others {
            [] => return false,
            [other, later_others @ ..] => {
                if !is_one_type(*kind, *other) {
                    return false;
                }
                kinds = later_kinds;
                others = later_others;
            }
        }
    }
    others.is_empty()
}
