//! Method resolution: a name to the signature of the first ancestor that introduces it.

ghost use Rattle.som_model.specs.Class.{entry_of};
ghost use Rattle.som_model.specs.Classes.{ancestors};
ghost use Rattle.som_model.specs.Lists.{Mem};
ghost use Rattle.som_model.specs.declared.key.ClassKey.TheVariants as keys;
ghost use Rattle.som_model.specs.declared.key.ClassKey.{ClassKey as Key};
ghost use Rattle.som_model.specs.declared.key.MethodRef.{MethodRef as Ref};
ghost use Rattle.som_verify_classes.specs.Places.{face_at, key_at};
ghost use Rattle.som_elab_body.specs.Forms.{Finds, first_method, method_by_entry};
ghost use Rattle.som_elab_body.specs.Methods as spec;
ghost use Rattle.som_sema_names.specs.Searching.{IsSearch};
ghost use Rattle.som_verify_forms.specs.Kinds.{PlaceStands, Stands, code_at, kind_at};
ghost use Rattle.som_verify_forms.specs.Knowing.{IsKnowledge, all_of};
ghost use Rattle.std.specs.Prelude.{◌≡◌, ◌<◌, ℕ, [], length, map, slice_index_or, IfOk, IfSome, Some};

use som_model::{ClassKey, Entry, List, MethodRef, Module, NoMemory, Sig, Text, Way};
use som_sema_names::{MethodSearch, only_introducer};
use som_verify_classes::{KERNEL_CLASSES, find_entry};
use som_verify_forms::{CodePlace, Kind, Knowledge, entries_of};
use std::alloc::Global;

/// A method that is found: the place of the class that introduces it, its signature and the way in which it is called.
#[derive(Clone, Copy)]
pub struct FoundMethod<'a> {
    pub class: usize,
    pub sig: &'a Sig,
    pub way: Way,
}

/// The method of a name that the class at a place has: that of its first ancestor that introduces the name.
pub fn method_of<'a>(
    known: &Knowledge<'a>,
    search: &MethodSearch,
    class: usize,
    name: &Text,
) -> Option<FoundMethod<'a>>
    requires known { IsKnowledge known.now }
    requires search { IsSearch (all_of known.now) known.now.lists.now search.now }
    requires class { class < length (all_of known.now) }
    ensures { Finds (all_of known.now) name.now (spec.method_of (all_of known.now) (key_at (all_of known.now) class) name.now) result }
{
    match only_method(known, search, class, name) {
        Some(found) => Some(found),
        None => first_introducing(known, ancestors_of(known, class), name),
    }
}

// The method of the only ancestor that introduces the name. By S8 a class has no two such ancestors, so without one the name
// breaks a rule, and the ancestors are gone over for that name alone.
fn only_method<'a>(
    known: &Knowledge<'a>,
    search: &MethodSearch,
    class: usize,
    name: &Text,
) -> Option<FoundMethod<'a>>
    requires known { IsKnowledge known.now }
    requires search { IsSearch (all_of known.now) known.now.lists.now search.now }
    requires class { class < length (all_of known.now) }
    ensures { IfSome result (λ m. Finds (all_of known.now) name.now
        (spec.method_of (all_of known.now) (key_at (all_of known.now) class) name.now) (Some m)) }
{
    match only_introducer(search, class, name.as_slice()) {
        None => None,
        Some(place) => introduced(known, place, name),
    }
}

// The places of the ancestors of the class at a place, itself first.
fn ancestors_of<'a>(known: &Knowledge<'a>, class: usize) -> &'a [usize]
    requires known { IsKnowledge known.now }
    requires class { class < length (all_of known.now) }
    ensures low { (a : ℕ) → Mem a result.now → a < length (all_of known.now) }
    ensures are { map (key_at (all_of known.now)) result.now ≡ ancestors (all_of known.now) (key_at (all_of known.now) class) }
{
    list_at(known.lists, class)
}

fn list_at(lists: &[List<usize>], place: usize) -> &[usize]
    requires { place < length lists.now }
    ensures { result.now ≡ slice_index_or lists.now place [] }
{
    lists[place].as_slice()
}

// The method of the first of these classes that introduces the name.
fn first_introducing<'a>(
    known: &Knowledge<'a>,
    list: &[usize],
    name: &Text,
) -> Option<FoundMethod<'a>>
    requires known { IsKnowledge known.now }
    requires list { (a : ℕ) → Mem a list.now → a < length (all_of known.now) }
    ensures { Finds (all_of known.now) name.now (first_method (all_of known.now) name.now list.now) result }
{
    for place in list {
        match introduced(known, *place, name) {
            Some(found) => return Some(found),
            None => {}
        }
    }
    None
}

// The method of that name, if the class at the place introduces it.
fn introduced<'a>(known: &Knowledge<'a>, place: usize, name: &Text) -> Option<FoundMethod<'a>>
    requires known { IsKnowledge known.now }
    requires place { place < length (all_of known.now) }
    ensures { Finds (all_of known.now) name.now (method_by_entry (key_at (all_of known.now) place) name.now
        (entry_of (face_at (all_of known.now) place).entries name.now)) result }
{
    match find_entry(entries_of(known, place), name) {
        Some(Entry::Introduced { sig, way, .. }) => Some(FoundMethod {
            class: place,
            sig,
            way: *way,
        }),
        _ => None,
    }
}

/// The method of a name that an object of a kind has.
pub fn method_for<'a>(
    known: &Knowledge<'a>,
    search: &MethodSearch,
    kind: Kind,
    name: &Text,
) -> Option<FoundMethod<'a>>
    requires known { IsKnowledge known.now }
    requires search { IsSearch (all_of known.now) known.now.lists.now search.now }
    requires kind { Stands (all_of known.now) kind }
    ensures { Finds (all_of known.now) name.now (spec.method_for (all_of known.now) (kind_at (all_of known.now) kind) name.now) result }
{
    match kind {
        Kind::Class(class) => method_of(known, search, class, name),
        _ => None,
    }
}

/// The method of a name that the class of a body has.
pub fn own_method<'a>(
    known: &Knowledge<'a>,
    search: &MethodSearch,
    at: &CodePlace,
    name: &Text,
) -> Option<FoundMethod<'a>>
    requires known { IsKnowledge known.now }
    requires search { IsSearch (all_of known.now) known.now.lists.now search.now }
    requires place { PlaceStands (all_of known.now) at.now }
    ensures { Finds (all_of known.now) name.now (spec.own_method (all_of known.now) (code_at (all_of known.now) at.now).class name.now) result }
{
    match at.class {
        Some(class) => method_of(known, search, class, name),
        None => None,
    }
}

/// A method by the key of the class at a place.
pub fn method_ref(
    alloc: Global,
    known: &Knowledge,
    class: usize,
    name: &Text,
) -> Result<MethodRef, NoMemory>
    requires known { IsKnowledge known.now }
    requires class { class < length (all_of known.now) }
    ensures { IfOk result (λ (r : Ref). r ≡ record { class = key_at (all_of known.now) class; name = name.now }) }
{
    Ok(MethodRef {
        class: key_of_place(alloc, known, class)?,
        name: name.copy(alloc)?,
    })
}

fn key_of_place(alloc: Global, known: &Knowledge, class: usize) -> Result<ClassKey, NoMemory>
    requires known { IsKnowledge known.now }
    requires class { class < length (all_of known.now) }
    ensures { IfOk result (λ (k : Key). k ≡ key_at (all_of known.now) class) }
{
    if class < KERNEL_CLASSES {
        let face = &known.kernel[class];
        named(alloc, Module::Kernel, &face.name)
    } else {
        let declared = &known.classes[class - KERNEL_CLASSES];
        let decl = declared.decl;
        named(alloc, declared.module, &decl.face.name)
    }
}

fn named(alloc: Global, own_module: Module, name: &Text) -> Result<ClassKey, NoMemory>
    ensures { IfOk result (λ (k : Key). k ≡ keys.Named own_module name.now) }
{
    Ok(ClassKey::Named {
        module: own_module,
        name: name.copy(alloc)?,
    })
}
