//! Keys of classes that a breach tells of: the told class and method, its ancestors and its metaclass.

ghost use Rattle.som_compat.specs.Told.{told};
ghost use Rattle.som_model.specs.Classes.{ancestors, class_at};
ghost use Rattle.som_model.specs.Class.{Class};
ghost use Rattle.som_model.specs.Kernel.{kernel, som_class};
ghost use Rattle.som_verify_classes.specs.declared.types.Declared.{Declared as Given};
ghost use Rattle.som_verify_classes.specs.Modules.{class_of};
ghost use Rattle.som_verify_forms.specs.Kinds.{IsDeclared};
ghost use Rattle.som_model.specs.declared.key.ClassKey.TheVariants as keys;
ghost use Rattle.som_model.specs.declared.key.Module.TheVariants as modules;
ghost use Rattle.som_verify_classes.specs.Places.{face_at, key_at};
ghost use Rattle.som_verify_forms.specs.Knowing.{IsKnowledge, all_of};
ghost use Rattle.som_witness.specs.Showings.{metaclass_in, told_method};
ghost use Rattle.std.specs.Prelude.{◌≡◌, ◌<◌, ◌-◌, ◌++◌, [], ℕ, List as Seq, IfOk, length, option_copied, slice_get, slice_index_or, unwrap_or};

use som_compat::Breach;
use som_model::{ClassKey, MethodRef, Module, NoMemory, Text};
use som_verify_classes::{Declared, KERNEL_CLASSES, item};
use som_verify_forms::{Knowledge, decl_at, place_of};
use std::alloc::Global;

/// A class of the kernel.
pub fn kernel_key(alloc: Global, name: &[u8]) -> Result<ClassKey, NoMemory>
    ensures { IfOk result (λ key. key ≡ keys.Named modules.Kernel name.now) }
{
    Ok(ClassKey::Named {
        module: Module::Kernel,
        name: Text::from_slice(alloc, name)?,
    })
}

/// The told class and its method of the name that is told.
pub fn told_method(alloc: Global, breach: &Breach) -> Result<MethodRef, NoMemory>
    ensures { IfOk result (λ method. method ≡ told_method (told breach.now)) }
{
    let name = told_name(alloc, breach)?;
    Ok(MethodRef {
        class: ClassKey::Named {
            module: Module::Library,
            name: breach.class.copy(alloc)?,
        },
        name,
    })
}

fn told_name(alloc: Global, breach: &Breach) -> Result<Text, NoMemory>
    ensures { IfOk result (λ name. name ≡ unwrap_or (told breach.now).name []) }
{
    match breach.name {
        Some(name) => name.copy(alloc),
        None => Ok(Text::from_vec(Vec::new(alloc))),
    }
}

// The name of the kernel's class at a place.
fn kernel_name<'a>(known: &Knowledge<'a>, place: usize) -> &'a Text
    requires known { IsKnowledge known.now }
    requires place { place < 4 }
    ensures { (cs : Seq Class) → keys.Named modules.Kernel result.now ≡ key_at (kernel ++ cs) place }
{
    &known.kernel[place].name
}

// The declared class at a place.
fn declared_at<'a>(known: &Knowledge<'a>, place: usize) -> &'a Declared<'a>
    requires known { IsKnowledge known.now }
    requires place { IsDeclared (all_of known.now) place }
    ensures { (d : Given) → slice_index_or known.now.classes.now (place - 4) d ≡ result.now }
{
    &known.classes[place - KERNEL_CLASSES]
}

// The key of a declared class.
fn declared_key(alloc: Global, class: &Declared) -> Result<ClassKey, NoMemory>
    ensures { IfOk result (λ key. key ≡ (class_of class.now).key) }
{
    Ok(ClassKey::Named {
        module: class.module,
        name: class.decl.face.name.copy(alloc)?,
    })
}

// The key of the class at a place.
fn key_at(alloc: Global, known: &Knowledge, place: usize) -> Result<ClassKey, NoMemory>
    requires known { IsKnowledge known.now }
    requires place { place < length (all_of known.now) }
    ensures { IfOk result (λ key. key ≡ key_at (all_of known.now) place) }
{
    if place < KERNEL_CLASSES {
        kernel_key(alloc, kernel_name(known, place).as_slice())
    } else {
        declared_key(alloc, declared_at(known, place))
    }
}

// The number at a place, if there is one.
fn number_at(list: &[usize], place: usize) -> Option<usize>
    ensures { result ≡ slice_get list.now place }
{
    match list.get(place) {
        Some(number) => Some(*number),
        None => None,
    }
}

// The same of a class at a place.
fn ancestor_of(
    alloc: Global,
    known: &Knowledge,
    class: &ClassKey,
    own: usize,
    place: usize,
) -> Result<ClassKey, NoMemory>
    requires known { IsKnowledge known.now }
    requires own { own < length (all_of known.now) }
    requires class { key_at (all_of known.now) own ≡ class.now }
    ensures { IfOk result (λ key. key ≡ unwrap_or (slice_get (ancestors (all_of known.now) class.now) place) class.now) }
{
    match number_at(item(known.lists, own), place) {
        Some(number) => key_at(alloc, known, number),
        None => class.copy(alloc),
    }
}

/// The ancestor of a class at this place among its ancestors; the class itself where there is none.
pub fn ancestor_at(
    alloc: Global,
    known: &Knowledge,
    class: &ClassKey,
    place: usize,
) -> Result<ClassKey, NoMemory>
    requires known { IsKnowledge known.now }
    requires library { (name : Seq ℕ) × (class.now ≡ keys.Named modules.Library name) }
    ensures { IfOk result (λ key. key ≡ unwrap_or (slice_get (ancestors (all_of known.now) class.now) place) class.now) }
{
    match place_of(known, class) {
        Some(own) => ancestor_of(alloc, known, class, own, place),
        None => class.copy(alloc),
    }
}

/// The metaclass that a class declares, else SOMClass.
pub fn metaclass_of(
    alloc: Global,
    known: &Knowledge,
    class: &ClassKey,
) -> Result<ClassKey, NoMemory>
    requires { IsKnowledge known.now }
    ensures { IfOk result (λ key. key ≡ metaclass_in (class_at (all_of known.now) class.now)) }
{
    match declared_metaclass(known, class) {
        Some(metaclass) => metaclass.copy(alloc),
        None => kernel_key(alloc, b"SOMClass"),
    }
}

fn declared_metaclass<'a>(known: &Knowledge<'a>, class: &ClassKey) -> Option<&'a ClassKey>
    requires { IsKnowledge known.now }
    ensures { unwrap_or (option_copied result) som_class ≡ metaclass_in (class_at (all_of known.now) class.now) }
{
    match place_of(known, class) {
        None => None,
        Some(place) => metaclass_at(known, place),
    }
}

// The metaclass that the class at a place declares; the kernel's declare none.
fn metaclass_at<'a>(known: &Knowledge<'a>, place: usize) -> Option<&'a ClassKey>
    requires known { IsKnowledge known.now }
    requires place { place < length (all_of known.now) }
    ensures { option_copied result ≡ (face_at (all_of known.now) place).metaclass }
{
    if place < KERNEL_CLASSES {
        None
    } else {
        decl_at(known, place).face.metaclass.as_ref()
    }
}
