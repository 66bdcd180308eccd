//! Turns the faces of an image to faces with names, and to the interface that they make.

ghost use Rattle.som_image_decode.specs.Naming.{key_at, kind_named};
ghost use Rattle.som_image_classes.specs.NamedClasses.{
  entry_named,
  face_named,
  interface_by,
  interface_named,
  metaclass_named,
  sig_named,
};
ghost use Rattle.som_image_classes.specs.SpelledClasses.{FitsFaces};
ghost use Rattle.som_image_fields.specs.Spelling.{FitsEntry, FitsFace, FitsKind, FitsSig};
ghost use Rattle.std.specs.Prelude.{◌≡◌, ◌<◌, false, length, map, All, IfOk, IfSome};

use som_image_decode::{Directory, key_of, name_kind};
use som_image_fields::{WireEntry, WireFace, WireSig, WireType};
use som_model::{ClassFace, ClassKey, Entry, Interface, List, NoMemory, Sig, ValueType};
use std::alloc::Global;

#[tactic(auto, using(som_image_decode::proofs::Naming::as_result))]
fn name_kinds(
    alloc: Global,
    keys: &List<ClassKey>,
    kinds: &List<WireType>,
) -> Result<List<ValueType>, NoMemory>
    requires { All (FitsKind (length keys.now) false) kinds.now }
    ensures { IfOk result (λ named. named ≡ map (kind_named keys.now) kinds.now) }
{
    let mut named = List::new(alloc);
    for kind in kinds.as_slice() {
        named.push(name_kind(alloc, keys, kind)?)?;
    }
    Ok(named)
}

fn name_sig(alloc: Global, keys: &List<ClassKey>, sig: &WireSig) -> Result<Sig, NoMemory>
    requires { FitsSig (length keys.now) sig.now }
    ensures { IfOk result (λ named. named ≡ sig_named keys.now sig.now) }
{
    Ok(Sig {
        result: name_kind(alloc, keys, &sig.result)?,
        params: name_kinds(alloc, keys, &sig.params)?,
    })
}

fn name_entry(alloc: Global, keys: &List<ClassKey>, entry: &WireEntry) -> Result<Entry, NoMemory>
    requires { FitsEntry (length keys.now) entry.now }
    ensures { IfOk result (λ named. named ≡ entry_named keys.now entry.now) }
{
    match entry {
        WireEntry::Introduced { name, sig, way } => Ok(Entry::Introduced {
            name: name.copy(alloc)?,
            sig: name_sig(alloc, keys, sig)?,
            way: *way,
        }),
        WireEntry::Moved { name, to } => Ok(Entry::Moved {
            name: name.copy(alloc)?,
            to: key_of(alloc, keys, *to)?,
        }),
    }
}

fn name_entries(
    alloc: Global,
    keys: &List<ClassKey>,
    entries: &List<WireEntry>,
) -> Result<List<Entry>, NoMemory>
    requires { All (FitsEntry (length keys.now)) entries.now }
    ensures { IfOk result (λ named. named ≡ map (entry_named keys.now) entries.now) }
{
    let mut named = List::new(alloc);
    for entry in entries.as_slice() {
        named.push(name_entry(alloc, keys, entry)?)?;
    }
    Ok(named)
}

fn name_parents(
    alloc: Global,
    keys: &List<ClassKey>,
    parents: &List<u16>,
) -> Result<List<ClassKey>, NoMemory>
    requires { All (λ n. n < length keys.now) parents.now }
    ensures { IfOk result (λ named. named ≡ map (key_at keys.now) parents.now) }
{
    let mut named = List::new(alloc);
    for &parent in parents.as_slice() {
        named.push(key_of(alloc, keys, parent)?)?;
    }
    Ok(named)
}

fn name_metaclass(
    alloc: Global,
    keys: &List<ClassKey>,
    metaclass: Option<u16>,
) -> Result<Option<ClassKey>, NoMemory>
    requires { IfSome metaclass (λ n. n < length keys.now) }
    ensures { IfOk result (λ named. named ≡ metaclass_named keys.now metaclass) }
{
    match metaclass {
        None => Ok(None),
        Some(number) => Ok(Some(key_of(alloc, keys, number)?)),
    }
}

/// The face that a face of an image stands for, where the class of each number has the key of that place.
pub fn name_face(
    alloc: Global,
    keys: &List<ClassKey>,
    face: &WireFace,
) -> Result<ClassFace, NoMemory>
    requires { FitsFace (length keys.now) face.now }
    ensures { IfOk result (λ named. named ≡ face_named keys.now face.now) }
{
    Ok(ClassFace {
        name: face.name.copy(alloc)?,
        major: face.major,
        minor: face.minor,
        parents: name_parents(alloc, keys, &face.parents)?,
        metaclass: name_metaclass(alloc, keys, face.metaclass)?,
        entries: name_entries(alloc, keys, &face.entries)?,
    })
}

// The faces that faces of an image stand for.
fn name_faces(
    alloc: Global,
    keys: &List<ClassKey>,
    faces: &List<WireFace>,
) -> Result<List<ClassFace>, NoMemory>
    requires { All (FitsFace (length keys.now)) faces.now }
    ensures { IfOk result (λ named. named ≡ map (face_named keys.now) faces.now) }
{
    let mut named = List::new(alloc);
    for face in faces.as_slice() {
        named.push(name_face(alloc, keys, face)?)?;
    }
    Ok(named)
}

/// The interface that faces stand for, where the class of each number has the key of that place.
pub fn name_interface_by(
    alloc: Global,
    keys: &List<ClassKey>,
    faces: &List<WireFace>,
) -> Result<Interface, NoMemory>
    requires { All (FitsFace (length keys.now)) faces.now }
    ensures { IfOk result (λ named. named ≡ interface_by keys.now faces.now) }
{
    Ok(Interface {
        classes: name_faces(alloc, keys, faces)?,
    })
}

/// The interface that the faces of a library stand for.
pub fn name_interface(alloc: Global, faces: &List<WireFace>) -> Result<Interface, NoMemory>
    requires { FitsFaces faces.now }
    ensures { IfOk result (λ named. named ≡ interface_named faces.now) }
{
    let directory = Directory::of_library(alloc, faces)?;
    name_interface_by(alloc, &directory.keys, faces)
}
