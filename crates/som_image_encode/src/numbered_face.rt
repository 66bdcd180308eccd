//! Turns a face with names to a face of an image: its types, entries, parents and metaclass.

ghost use Rattle.som_image_encode.specs.Numbering.{
  IsDirectory,
  IsKnown,
  IsValue,
  kind_numbered,
  number_of,
};
ghost use Rattle.som_image_encode.specs.NumberedClasses.{EntryKnown, FaceKnown, SigKnown, entry_numbered, face_numbered, metaclass_numbered, sig_numbered};
ghost use Rattle.som_model.specs.Lists.{Mem};
ghost use Rattle.som_order.specs.Names.{texts};
ghost use Rattle.std.specs.Prelude.{◌≡◌, map, All, IfOk, IfSome};

use crate::lookup::{number_kind, number_of};
use indexmap::IndexSet;
use som_image_decode::Directory;
use som_image_fields::{WireEntry, WireFace, WireSig, WireType};
use som_model::{ClassFace, ClassKey, Entry, List, NoMemory, Sig, ValueType};
use std::alloc::Global;

#[tactic(auto, using(crate::proofs::Numbering::as_type))]
fn number_kinds(
    alloc: Global,
    names: &IndexSet<&[u8]>,
    directory: &Directory,
    kinds: &List<ValueType>,
) -> Result<List<WireType>, NoMemory>
    requires directory { IsDirectory (texts names.now.keys) directory.now }
    requires known { All (IsValue directory.now.keys) kinds.now }
    ensures { IfOk result (λ numbered. numbered ≡ map (kind_numbered directory.now.keys) kinds.now) }
{
    let mut numbered = List::new(alloc);
    for kind in kinds.as_slice() {
        numbered.push(number_kind(directory, names, kind))?;
    }
    Ok(numbered)
}

fn number_sig(
    alloc: Global,
    names: &IndexSet<&[u8]>,
    directory: &Directory,
    sig: &Sig,
) -> Result<WireSig, NoMemory>
    requires directory { IsDirectory (texts names.now.keys) directory.now }
    requires known { SigKnown directory.now.keys sig.now }
    ensures { IfOk result (λ numbered. numbered ≡ sig_numbered directory.now.keys sig.now) }
{
    Ok(WireSig {
        result: number_kind(directory, names, &sig.result),
        params: number_kinds(alloc, names, directory, &sig.params)?,
    })
}

fn number_entry(
    alloc: Global,
    names: &IndexSet<&[u8]>,
    directory: &Directory,
    entry: &Entry,
) -> Result<WireEntry, NoMemory>
    requires directory { IsDirectory (texts names.now.keys) directory.now }
    requires known { EntryKnown directory.now.keys entry.now }
    ensures { IfOk result (λ numbered. numbered ≡ entry_numbered directory.now.keys entry.now) }
{
    match entry {
        Entry::Introduced { name, sig, way } => Ok(WireEntry::Introduced {
            name: name.copy(alloc)?,
            sig: number_sig(alloc, names, directory, sig)?,
            way: *way,
        }),
        Entry::Moved { name, to } => Ok(WireEntry::Moved {
            name: name.copy(alloc)?,
            to: number_of(directory, names, to),
        }),
    }
}

fn number_entries(
    alloc: Global,
    names: &IndexSet<&[u8]>,
    directory: &Directory,
    entries: &List<Entry>,
) -> Result<List<WireEntry>, NoMemory>
    requires directory { IsDirectory (texts names.now.keys) directory.now }
    requires known { All (EntryKnown directory.now.keys) entries.now }
    ensures { IfOk result (λ numbered. numbered ≡ map (entry_numbered directory.now.keys) entries.now) }
{
    let mut numbered = List::new(alloc);
    for entry in entries.as_slice() {
        numbered.push(number_entry(alloc, names, directory, entry)?)?;
    }
    Ok(numbered)
}

fn number_parents(
    alloc: Global,
    names: &IndexSet<&[u8]>,
    directory: &Directory,
    parents: &List<ClassKey>,
) -> Result<List<u16>, NoMemory>
    requires directory { IsDirectory (texts names.now.keys) directory.now }
    requires known { All (λ k. Mem k directory.now.keys) parents.now }
    ensures { IfOk result (λ numbered. numbered ≡ map (number_of directory.now.keys) parents.now) }
{
    let mut numbered = List::new(alloc);
    for parent in parents.as_slice() {
        numbered.push(number_of(directory, names, parent))?;
    }
    Ok(numbered)
}

fn number_metaclass(
    names: &IndexSet<&[u8]>,
    directory: &Directory,
    metaclass: &Option<ClassKey>,
) -> Option<u16>
    requires directory { IsDirectory (texts names.now.keys) directory.now }
    requires known { IfSome metaclass.now (λ k. Mem k directory.now.keys) }
    ensures { result ≡ metaclass_numbered directory.now.keys metaclass.now }
{
    match metaclass {
        None => None,
        Some(key) => Some(number_of(directory, names, key)),
    }
}

/// The face of an image that stands for a face, which names classes of the directory alone.
pub fn number_face(
    alloc: Global,
    names: &IndexSet<&[u8]>,
    directory: &Directory,
    face: &ClassFace,
) -> Result<WireFace, NoMemory>
    requires directory { IsDirectory (texts names.now.keys) directory.now }
    requires known { FaceKnown directory.now.keys face.now }
    ensures { IfOk result (λ numbered. numbered ≡ face_numbered directory.now.keys face.now) }
{
    Ok(WireFace {
        name: face.name.copy(alloc)?,
        major: face.major,
        minor: face.minor,
        parents: number_parents(alloc, names, directory, &face.parents)?,
        metaclass: number_metaclass(names, directory, &face.metaclass),
        entries: number_entries(alloc, names, directory, &face.entries)?,
    })
}
