//! Looks up entries of release orders: all of a class, and that of a name, moved up or with its signature.

ghost use Rattle.som_model.specs.Class.{entry_of, introduced_sig};
ghost use Rattle.som_model.specs.Kernel.{kernel_interface};
ghost use Rattle.som_verify_classes.specs.Inherited.{moved_to as moved};
ghost use Rattle.som_verify_classes.specs.Modules.{classes_of};
ghost use Rattle.som_verify_classes.specs.Places.{face_at, with_kernel};
ghost use Rattle.std.specs.Prelude.{◌≡◌, ◌<◌, length, option_copied};

use crate::table::KERNEL_CLASSES;
use crate::types::Declared;
use som_model::{ClassFace, ClassKey, Entry, Sig, Text};
use som_order::name_of;

/// The entries of the class at a place.
pub fn entries_at<'a>(
    kernel: &'a [ClassFace],
    classes: &[Declared<'a>],
    place: usize,
) -> &'a [Entry]
    requires kernel { kernel.now ≡ kernel_interface.classes }
    requires place { place < length (with_kernel (classes_of classes.now)) }
    ensures { result.now ≡ (face_at (with_kernel (classes_of classes.now)) place).entries }
{
    if place < KERNEL_CLASSES {
        kernel[place].entries.as_slice()
    } else {
        let decl = classes[place - KERNEL_CLASSES].decl;
        decl.face.entries.as_slice()
    }
}

/// The entry of that name.
pub fn find_entry<'a>(entries: &'a [Entry], name: &Text) -> Option<&'a Entry>
    ensures { option_copied result ≡ entry_of entries.now name.now }
{
    for entry in entries {
        if name_of(entry).is(name.as_slice()) {
            return Some(entry);
        }
    }
    None
}

/// To where the entry of that name was moved, if it was.
pub fn moved_to<'a>(entries: &'a [Entry], name: &Text) -> Option<&'a ClassKey>
    ensures { option_copied result ≡ moved (entry_of entries.now name.now) }
{
    match find_entry(entries, name) {
        Some(Entry::Moved { to, .. }) => Some(to),
        _ => None,
    }
}

/// The signature that the entry of that name introduces, if it does.
pub fn introduced_by<'a>(entries: &'a [Entry], name: &Text) -> Option<&'a Sig>
    ensures { option_copied result ≡ introduced_sig (entry_of entries.now name.now) }
{
    match find_entry(entries, name) {
        Some(Entry::Introduced { sig, .. }) => Some(sig),
        _ => None,
    }
}
