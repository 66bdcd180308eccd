//! Checks that each entry keeps its signature through its owner (K5).

ghost use Rattle.som_compat.specs.Conditions.{Conforms};
ghost use Rattle.som_compat.specs.Told.{changed, entry_sig, sig_told, signature_told, told_by};
ghost use Rattle.som_compat.specs.Views.{IsShown, classes_of, interface, shown};
ghost use Rattle.som_model.specs.Class.{entry_of, introduced_sig};
ghost use Rattle.som_model.specs.Compatible.{incompatible, k4, k5};
ghost use Rattle.som_model.specs.Kernel.{kernel};
ghost use Rattle.som_model.specs.Lists.{first};
ghost use Rattle.som_model.specs.Owner.{sig_of};
ghost use Rattle.som_model.specs.Same.{same_option, same_sig};
ghost use Rattle.som_model.specs.declared.limits.TheConstants.{MAX_ENTRIES};
ghost use Rattle.som_verify_classes.specs.Places.{face_at};
ghost use Rattle.std.specs.Prelude.{◌≡◌, ◌<◌, ◌≤◌, None, Some, length, map, option_copied};

use crate::breach::Breach;
use crate::kernel::{KernelSig, are_one, is_kernel_sig, is_sig_of, kernel_sig};
use crate::lookup::{KERNEL_CLASSES, Lookup};
use som_model::{ClassFace, ClassKey, Entry, Sig, Text};
use som_order::name_of;

/// A signature: one that an interface declares, or one of the kernel's.
#[derive(Clone, Copy)]
pub enum Signature<'a> {
    Declared(&'a Sig),
    Kernel(KernelSig),
}

fn are_same(a: Signature, b: Signature) -> bool
    ensures { result ≡ same_sig (sig_told a.entry) (sig_told b.entry) }
{
    match (a, b) {
        (Signature::Declared(x), Signature::Declared(y)) => x.is(y),
        (Signature::Declared(x), Signature::Kernel(y)) => is_kernel_sig(x, y),
        (Signature::Kernel(x), Signature::Declared(y)) => is_sig_of(x, y),
        (Signature::Kernel(x), Signature::Kernel(y)) => are_one(x, y),
    }
}

fn are_one_signature(a: Option<Signature>, b: Option<Signature>) -> bool
    ensures { result ≡ same_option same_sig (signature_told a.entry) (signature_told b.entry) }
{
    match (a, b) {
        (None, None) => true,
        (Some(x), Some(y)) => are_same(x, y),
        _ => false,
    }
}

// The signature that a class introduces for a name.
fn introduced<'a>(entries: &'a [Entry], wanted: &Text) -> Option<&'a Sig>
    ensures { option_copied result ≡ introduced_sig (entry_of entries.now wanted.now) }
{
    for entry in entries {
        if name_of(entry).is(wanted.as_slice()) {
            return own_sig(entry);
        }
    }
    None
}

fn own_sig(entry: &Entry) -> Option<&Sig>
    ensures { option_copied result ≡ introduced_sig (Some entry.now) }
{
    match entry {
        Entry::Introduced { sig, .. } => Some(sig),
        Entry::Moved { .. } => None,
    }
}

fn kernel_signature<'a>(place: usize, name: &Text) -> Option<Signature<'a>>
    requires { place < 4 }
    ensures { signature_told result ≡ introduced_sig (entry_of (face_at kernel place).entries name.now) }
{
    match kernel_sig(place, name) {
        Some(sig) => Some(Signature::Kernel(sig)),
        None => None,
    }
}

fn declared_signature<'a>(face: &'a ClassFace, name: &Text) -> Option<Signature<'a>>
    ensures { signature_told result ≡ introduced_sig (entry_of face.now.entries name.now) }
{
    match introduced(face.entries.as_slice(), name) {
        Some(sig) => Some(Signature::Declared(sig)),
        None => None,
    }
}

// The signature that the class of a key introduces for a name.
fn sig_in<'a>(lookup: &Lookup<'a>, class: &ClassKey, name: &Text) -> Option<Signature<'a>>
    requires { Conforms (interface lookup.now.faces.now) }
    ensures { signature_told result ≡ sig_of (classes_of lookup.now.faces.now) (record { class = class.now; name = name.now }) }
{
    match lookup.place(class) {
        None => None,
        Some(place) => {
            if place < KERNEL_CLASSES {
                kernel_signature(place, name)
            } else {
                declared_signature(lookup.face(place), name)
            }
        }
    }
}

fn signature_of<'a>(lookup: &Lookup<'a>, entry: &'a Entry) -> Option<Signature<'a>>
    requires { Conforms (interface lookup.now.faces.now) }
    ensures { signature_told result ≡ entry_sig (classes_of lookup.now.faces.now) entry.now }
{
    match entry {
        Entry::Introduced { sig, .. } => Some(Signature::Declared(sig)),
        Entry::Moved { name, to } => sig_in(lookup, to, name),
    }
}

fn keeps_signature<'x>(old: &Lookup<'x>, new: &Lookup<'x>, x: &'x Entry, y: &'x Entry) -> bool
    requires old { Conforms (interface old.now.faces.now) }
    requires new { Conforms (interface new.now.faces.now) }
    ensures { result ≡ same_option same_sig (entry_sig (classes_of old.now.faces.now) x.now) (entry_sig (classes_of new.now.faces.now) y.now) }
{
    are_one_signature(signature_of(old, x), signature_of(new, y))
}

/// The first entry that has another signature in the new.
fn same_signatures<'a, 'x>(
    old: &Lookup<'x>,
    new: &Lookup<'x>,
    class: &'a ClassFace,
    other: &'x ClassFace,
) -> Result<(), Breach<'a>>
where
    'a: 'x,
    requires old { Conforms (interface old.now.faces.now) }
    requires new { Conforms (interface new.now.faces.now) }
    requires few { length class.now.entries ≤ MAX_ENTRIES }
    ensures { told_by result ≡ first (map (λ p. incompatible 5 (shown class.now) (Some p.0) p.1)
        (changed (classes_of old.now.faces.now) (classes_of new.now.faces.now) 0 class.now.entries other.now.entries)) }
{
    let mut olds = class.entries.as_slice();
    let mut news = other.entries.as_slice();
    let mut place = 0u32;
    while let [x, later_olds @ ..] = olds {
        match news {
            [] => return Ok(()),
            [y, later_news @ ..] => {
                if !keeps_signature(old, new, x, y) {
                    return Err(Breach {
                        rule: 5,
                        class: &class.name,
                        name: Some(name_of(x)),
                        place,
                    });
                }
                olds = later_olds;
                news = later_news;
                place += 1;
            }
        }
    }
    Ok(())
}

/// K5, where K4 holds: each old entry has the same signature through its owner in the old and in the new.
pub fn keeps_signatures<'a, 'x>(
    old: &Lookup<'x>,
    new: &Lookup<'x>,
    class: &'a ClassFace,
    other: &'x ClassFace,
) -> Result<(), Breach<'a>>
where
    'a: 'x,
    requires old { Conforms (interface old.now.faces.now) }
    requires new { Conforms (interface new.now.faces.now) }
    requires few { length class.now.entries ≤ MAX_ENTRIES }
    requires pair { IsShown old.now.faces.now new.now.faces.now class.now other.now }
    requires order { first (k4 (shown class.now) (shown other.now)) ≡ None }
    ensures { told_by result ≡ first (k5 (classes_of old.now.faces.now) (classes_of new.now.faces.now) (shown class.now)) }
{
    same_signatures(old, new, class, other)
}
