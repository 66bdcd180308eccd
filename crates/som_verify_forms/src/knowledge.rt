//! The type checker's view of classes: their places, entries, ancestors and signatures, and which kind fits.

ghost use Rattle.som_model.specs.Kernel.{kernel_interface};
ghost use Rattle.som_model.specs.Lists.{every};
ghost use Rattle.som_model.specs.Owner.{sig_of};
ghost use Rattle.som_model.specs.Rules.{is_known};
ghost use Rattle.som_model.specs.Typing.{descends_to, fits, kind_is_known};
ghost use Rattle.som_model.specs.declared.key.ValueType.TheVariants as types;
ghost use Rattle.som_order.specs.Names.{texts};
ghost use Rattle.som_verify_classes.specs.Faces.{classes_breach};
ghost use Rattle.som_verify_classes.specs.Inherited.{method_of};
ghost use Rattle.som_verify_classes.specs.Modules.{classes_of};
ghost use Rattle.som_verify_classes.specs.Places.{Finds, IsTable, class_of_place, face_at, key_at, with_kernel};
ghost use Rattle.som_verify_classes.specs.Walk.{AreLists};
ghost use Rattle.som_verify_forms.specs.Kinds.{AreTypes, IsDeclared, IsType, Stands, kind_at, type_at};
ghost use Rattle.som_verify_forms.specs.Knowing.{IsKnowledge, all_of, facts_of, sig_is_known};
ghost use Rattle.som_verify_forms.specs.Scopes.{scope_at};
ghost use Rattle.std.specs.Prelude.{◌≡◌, ◌<◌, ℕ, None, true, length, is_some, option_copied, IfOk, IfSome};

use crate::forms::{is_boolean, is_long, is_nothing, is_string};
use crate::kind::Kind;
use indexmap::IndexSet;
use som_model::{
    ClassDecl, ClassFace, ClassKey, Entry, List, MethodRef, NoMemory, Sig, Text, ValueType,
};
use som_verify_classes::{
    Declared, KERNEL_CLASSES, Method, descends_by, entries_at, find_class, find_entry,
    introduced_by, owner_of,
};
use std::alloc::Global;

/// What typing knows of classes that break no rule on faces: their names, their places, and their ancestors by places.
#[derive(Clone, Copy)]
pub struct Knowledge<'a> {
    pub table: &'a IndexSet<&'a [u8]>,
    pub kernel: &'a [ClassFace],
    pub classes: &'a [Declared<'a>],
    pub lists: &'a [List<usize>],
}

/// What is known of classes that break no rule on faces.
pub fn know<'a>(
    table: &'a IndexSet<&'a [u8]>,
    kernel: &'a [ClassFace],
    classes: &'a [Declared<'a>],
    lists: &'a [List<usize>],
) -> Knowledge<'a>
    requires table { IsTable (classes_of classes.now) (texts table.now.keys) }
    requires kernel { kernel.now ≡ kernel_interface.classes }
    requires lists { AreLists (with_kernel (classes_of classes.now)) lists.now }
    requires rules { (base : ℕ) × (classes_breach base (classes_of classes.now) ≡ None) }
    ensures known { IsKnowledge result }
    ensures classes { result.classes.now ≡ classes.now }
{
    Knowledge {
        table,
        kernel,
        classes,
        lists,
    }
}

/// The place of a class, if it is known.
pub fn place_of(known: &Knowledge, key: &ClassKey) -> Option<usize>
    requires { IsKnowledge known.now }
    ensures finds { Finds (length (all_of known.now)) (all_of known.now) key.now result }
    ensures known { is_some result ≡ (facts_of known.now).is_known key.now }
{
    find_class(
        known.table,
        known.classes,
        key,
        known.classes.len() + KERNEL_CLASSES,
    )
}

/// The kind of a type, if its class is known.
pub fn kind_of(known: &Knowledge, kind: &ValueType) -> Option<Kind>
    requires { IsKnowledge known.now }
    ensures known { is_some result ≡ kind_is_known (facts_of known.now) kind.now }
    ensures is { IfSome result (λ k. type_at (all_of known.now) k ≡ kind.now) }
    ensures stands { IfSome result (IsType (all_of known.now)) }
{
    match kind {
        ValueType::Void => Some(Kind::Void),
        ValueType::Long => Some(Kind::Long),
        ValueType::Boolean => Some(Kind::Boolean),
        ValueType::Str => Some(Kind::Str),
        ValueType::Class(key) => match place_of(known, key) {
            Some(place) => Some(Kind::Class(place)),
            None => None,
        },
    }
}

/// The class at a place after those of the kernel.
pub fn decl_at<'a>(known: &Knowledge<'a>, place: usize) -> &'a ClassDecl
    requires known { IsKnowledge known.now }
    requires place { IsDeclared (all_of known.now) place }
    ensures { result.now ≡ (class_of_place (all_of known.now) place).decl }
{
    known.classes[place - KERNEL_CLASSES].decl
}

/// The entries of the class at a place.
pub fn entries_of<'a>(known: &Knowledge<'a>, place: usize) -> &'a [Entry]
    requires known { IsKnowledge known.now }
    requires place { place < length (all_of known.now) }
    ensures { result.now ≡ (face_at (all_of known.now) place).entries }
{
    entries_at(known.kernel, known.classes, place)
}

/// The metaclass that the class at a place declares.
pub fn metaclass_of<'a>(known: &Knowledge<'a>, place: usize) -> Option<&'a ClassKey>
    requires known { IsKnowledge known.now }
    requires place { place < length (all_of known.now) }
    ensures { option_copied result ≡ (face_at (all_of known.now) place).metaclass }
{
    if place < KERNEL_CLASSES {
        None
    } else {
        decl_at(known, place).face.metaclass.as_ref()
    }
}

/// Whether the class at a place descends from a class.
pub fn descends_from(known: &Knowledge, class: usize, ancestor: &ClassKey) -> bool
    requires known { IsKnowledge known.now }
    requires class { class < length (all_of known.now) }
    ensures { result ≡ (facts_of known.now).is_a (key_at (all_of known.now) class) ancestor.now }
{
    match place_of(known, ancestor) {
        Some(place) => is_below(known, class, place),
        None => false,
    }
}

/// Whether the class at a place descends from that at another.
pub fn is_below(known: &Knowledge, class: usize, ancestor: usize) -> bool
    requires known { IsKnowledge known.now }
    requires class { class < length (all_of known.now) }
    requires ancestor { ancestor < length (all_of known.now) }
    ensures { result ≡ (facts_of known.now).is_a (key_at (all_of known.now) class) (key_at (all_of known.now) ancestor) }
{
    descends_by(known.lists, class, ancestor)
}

/// The method as the class has it that introduces it.
pub fn owner<'a>(known: &Knowledge<'a>, method: &'a MethodRef) -> Method<'a>
    requires { IsKnowledge known.now }
    ensures { method_of result ≡ (facts_of known.now).owner method.now }
{
    owner_of(known.table, known.kernel, known.classes, method)
}

/// The signature of a method, which its owner introduces.
pub fn signature_of<'a>(known: &Knowledge<'a>, method: &'a MethodRef) -> Option<&'a Sig>
    requires { IsKnowledge known.now }
    ensures is { option_copied result ≡ (facts_of known.now).signature method.now }
    ensures known { IfSome result (λ sig. sig_is_known (all_of known.now) sig.now ≡ true) }
{
    match place_of(known, &method.class) {
        Some(place) => signature_at(known, place, method),
        None => None,
    }
}

// The signature of a method of the class at a place, among whose entries the name is searched once.
fn signature_at<'a>(known: &Knowledge<'a>, place: usize, method: &'a MethodRef) -> Option<&'a Sig>
    requires known { IsKnowledge known.now }
    requires place { place < length (all_of known.now) }
    requires class { key_at (all_of known.now) place ≡ method.now.class }
    ensures is { option_copied result ≡ (facts_of known.now).signature method.now }
    ensures known { IfSome result (λ sig. sig_is_known (all_of known.now) sig.now ≡ true) }
{
    match find_entry(entries_of(known, place), &method.name) {
        None => None,
        Some(Entry::Introduced { sig, .. }) => Some(sig),
        Some(Entry::Moved { to, .. }) => introduced_in(known, to, &method.name),
    }
}

// The signature that a class introduces for a name.
fn introduced_in<'a>(known: &Knowledge<'a>, class: &ClassKey, name: &Text) -> Option<&'a Sig>
    requires known { IsKnowledge known.now }
    ensures is { option_copied result ≡ sig_of (all_of known.now) (record { class = class.now; name = name.now }) }
    ensures known { IfSome result (λ sig. sig_is_known (all_of known.now) sig.now ≡ true) }
{
    match place_of(known, class) {
        Some(place) => introduced_by(entries_of(known, place), name),
        None => None,
    }
}

/// Whether a value of one kind may stand where another is wanted.
pub fn kind_fits(known: &Knowledge, wanted: Kind, given: Kind) -> bool
    requires known { IsKnowledge known.now }
    requires wanted { IsType (all_of known.now) wanted }
    requires given { Stands (all_of known.now) given }
    ensures { result ≡ fits (facts_of known.now) (type_at (all_of known.now) wanted) (kind_at (all_of known.now) given) }
{
    match wanted {
        Kind::Void => is_nothing(given),
        Kind::Long => is_long(given),
        Kind::Boolean => is_boolean(given),
        Kind::Str => is_string(given),
        Kind::Nil => false,
        Kind::Class(ancestor) => class_fits(known, ancestor, given),
    }
}

fn class_fits(known: &Knowledge, ancestor: usize, given: Kind) -> bool
    requires known { IsKnowledge known.now }
    requires ancestor { ancestor < length (all_of known.now) }
    requires given { Stands (all_of known.now) given }
    ensures { result ≡ fits (facts_of known.now) (types.Class (key_at (all_of known.now) ancestor)) (kind_at (all_of known.now) given) }
{
    match given {
        Kind::Nil => true,
        Kind::Class(class) => is_below(known, class, ancestor),
        _ => false,
    }
}

/// Whether a value of a kind may stand where one of a type is wanted, the class of which need not be known.
pub fn type_fits(known: &Knowledge, wanted: &ValueType, given: Kind) -> bool
    requires known { IsKnowledge known.now }
    requires given { Stands (all_of known.now) given }
    ensures { result ≡ fits (facts_of known.now) wanted.now (kind_at (all_of known.now) given) }
{
    match wanted {
        ValueType::Void => is_nothing(given),
        ValueType::Long => is_long(given),
        ValueType::Boolean => is_boolean(given),
        ValueType::Str => is_string(given),
        ValueType::Class(key) => key_fits(known, key, given),
    }
}

fn key_fits(known: &Knowledge, key: &ClassKey, given: Kind) -> bool
    requires known { IsKnowledge known.now }
    requires given { Stands (all_of known.now) given }
    ensures { result ≡ fits (facts_of known.now) (types.Class key.now) (kind_at (all_of known.now) given) }
{
    match given {
        Kind::Nil => true,
        _ => is_instance(known, given, key),
    }
}

/// Whether the kind is that of a class which descends from another.
pub fn is_instance(known: &Knowledge, kind: Kind, ancestor: &ClassKey) -> bool
    requires known { IsKnowledge known.now }
    requires kind { Stands (all_of known.now) kind }
    ensures { result ≡ descends_to (facts_of known.now) ancestor.now (kind_at (all_of known.now) kind) }
{
    match kind {
        Kind::Class(class) => descends_from(known, class, ancestor),
        _ => false,
    }
}

/// The kinds of types that are known.
pub fn kinds_of(
    alloc: Global,
    known: &Knowledge,
    types: &[ValueType],
) -> Result<Vec<Kind>, NoMemory>
    requires known { IsKnowledge known.now }
    requires types { every (is_known (all_of known.now)) types.now ≡ true }
    ensures are { IfOk result (λ kinds. scope_at (all_of known.now) kinds.items ≡ types.now) }
    ensures types { IfOk result (λ kinds. AreTypes (all_of known.now) kinds.items) }
{
    let mut kinds = Vec::new(alloc);
    for kind in types {
        kinds.push(known_kind(known, kind))?;
    }
    Ok(kinds)
}

/// The kind of a type that is known.
pub fn known_kind(known: &Knowledge, kind: &ValueType) -> Kind
    requires known { IsKnowledge known.now }
    requires kind { is_known (all_of known.now) kind.now ≡ true }
    ensures is { type_at (all_of known.now) result ≡ kind.now }
    ensures a_type { IsType (all_of known.now) result }
{
    match kind_of(known, kind) {
        Some(found) => found,
        None => unreachable!(),
    }
}
