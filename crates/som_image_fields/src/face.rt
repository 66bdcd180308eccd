//! Decodes and encodes the face of a class: name, version, parents, metaclass and release order.

ghost use Rattle.std.specs.Prelude.{◌≡◌, ◌<◌, ◌≤◌, ◌++◌, ℕ, length, All, IfOk, IfSome, OnOk, OnErr};
ghost use Rattle.std.specs.List.{flat_map};
ghost use Rattle.std.specs.Int.{w8, w16};
ghost use Rattle.som_model.specs.declared.limits.TheConstants.{MAX_PARENTS, MAX_ENTRIES};
ghost use Rattle.som_image_fields.specs.Fields.{Stands, Gives, done, many_at, counted_at};
ghost use Rattle.som_image_fields.specs.Spelling.{number, entry, FitsEntry, metaclass, face, FitsFace, most_classes};
ghost use Rattle.som_image_fields.specs.Reading.{number_at, below_at, version_at, metaclass_at, entry_at, face_at};

use crate::entry::append_entry;
use crate::number::read_below;
use crate::text::append_text;
use crate::{
    ImageFault, Read, WireEntry, read_entry, read_many, read_text, read_u8, read_u16, read_u32,
    write_u8, write_u16, write_u32,
};
use som_model::{List, MAX_ENTRIES, MAX_PARENTS, MAX_VERSION, NoMemory, Text};
use std::alloc::Global;

/// What others see of a class, whose parents, metaclass and types go by their numbers.
#[derive(Drop)]
pub struct WireFace {
    pub name: Text,
    pub major: u32,
    pub minor: u32,
    pub parents: List<u16>,
    pub metaclass: Option<u16>,
    pub entries: List<WireEntry>,
}

/// Reads a face at a place.
pub fn read_face(
    alloc: Global,
    bytes: &List<u8>,
    place: usize,
    classes: u16,
) -> Result<Read<WireFace>, ImageFault>
    requires { place ≤ length bytes.now }
    ensures found { IfOk result (λ r. Stands bytes.now place (face r.value) r.next × FitsFace classes r.value) }
    ensures only { (f : _) (next : ℕ) → Stands bytes.now place (face f) next → FitsFace classes f →
        Gives result (done f next) }
    ensures exact { Gives result (face_at classes bytes.now place) }
{
    let _all = bytes.as_bytes();
    read_fields(alloc, bytes, place, classes)
}

#[tactic(auto, unfolding(crate::specs::Reading::face_at))]
fn read_fields(
    alloc: Global,
    bytes: &List<u8>,
    place: usize,
    classes: u16,
) -> Result<Read<WireFace>, ImageFault>
    requires { place ≤ length bytes.now }
    ensures { Gives result (face_at classes bytes.now place) }
{
    let name = read_text(alloc, bytes, place)?;
    let major = read_version(bytes, name.next)?;
    let minor = read_version(bytes, major.next)?;
    let parents = read_parents(alloc, bytes, minor.next, classes)?;
    let metaclass = read_metaclass(bytes, parents.next, classes)?;
    let entries = read_entries(alloc, bytes, metaclass.next, classes)?;
    Ok(Read {
        value: WireFace {
            name: name.value,
            major: major.value,
            minor: minor.value,
            parents: parents.value,
            metaclass: metaclass.value,
            entries: entries.value,
        },
        next: entries.next,
    })
}

#[tactic(auto, unfolding(crate::specs::Reading::version_at))]
fn read_version(bytes: &List<u8>, place: usize) -> Result<Read<u32>, ImageFault>
    requires { place ≤ length bytes.now }
    ensures exact { result ≡ version_at bytes.now place }
    ensures next { IfOk result (λ r. r.next ≤ length bytes.now) }
{
    let number = read_u32(bytes, place)?;
    if number.value <= MAX_VERSION {
        Ok(number)
    } else {
        Err(ImageFault::Number { offset: place })
    }
}

fn read_parents(
    alloc: Global,
    bytes: &List<u8>,
    place: usize,
    classes: u16,
) -> Result<Read<List<u16>>, ImageFault>
    requires { place ≤ length bytes.now }
    ensures exact { Gives result (counted_at (number_at w8 bytes.now) 1 MAX_PARENTS (below_at classes bytes.now) place) }
    ensures next { IfOk result (λ r. r.next ≤ length bytes.now) }
{
    let count = read_u8(bytes, place)?;
    let parents = u32::from(count.value);
    if parents < 1 || parents > MAX_PARENTS {
        return Err(ImageFault::Number { offset: place });
    }
    read_many(
        alloc,
        bytes,
        parents,
        count.next,
        |p: usize| -> Result<Read<u16>, ImageFault>
            requires { p ≤ length bytes.now }
            ensures exact { Gives result (below_at classes bytes.entry.now p) }
            ensures next { IfOk result (λ r. r.next ≤ length bytes.entry.now) }
        { read_below(bytes, p, classes) },
    )
}

#[tactic(auto, unfolding(crate::specs::Reading::metaclass_at))]
fn read_metaclass(
    bytes: &List<u8>,
    place: usize,
    classes: u16,
) -> Result<Read<Option<u16>>, ImageFault>
    requires { place ≤ length bytes.now }
    ensures exact { result ≡ metaclass_at classes bytes.now place }
    ensures next { IfOk result (λ r. r.next ≤ length bytes.now) }
{
    let flag = read_u8(bytes, place)?;
    match flag.value {
        0 => Ok(Read {
            value: None,
            next: flag.next,
        }),
        1 => {
            let class = read_below(bytes, flag.next, classes)?;
            Ok(Read {
                value: Some(class.value),
                next: class.next,
            })
        }
        _ => Err(ImageFault::Tag { offset: place }),
    }
}

fn read_entries(
    alloc: Global,
    bytes: &List<u8>,
    place: usize,
    classes: u16,
) -> Result<Read<List<WireEntry>>, ImageFault>
    requires { place ≤ length bytes.now }
    ensures exact { Gives result (counted_at (number_at w16 bytes.now) 0 MAX_ENTRIES (entry_at classes bytes.now) place) }
    ensures next { IfOk result (λ r. r.next ≤ length bytes.now) }
{
    let count = read_u16(bytes, place)?;
    let entries = u32::from(count.value);
    if entries > MAX_ENTRIES {
        return Err(ImageFault::Number { offset: place });
    }
    read_many(
        alloc,
        bytes,
        entries,
        count.next,
        |p: usize| -> Result<Read<WireEntry>, ImageFault>
            requires { p ≤ length bytes.now }
            ensures exact { Gives result (entry_at classes bytes.entry.now p) }
            ensures next { IfOk result (λ r. r.next ≤ length bytes.entry.now) }
        { read_entry(alloc, bytes, p, classes) },
    )
}

/// Appends a face. It is spelled in a list of its own first, so that want of memory leaves `out` as it was.
pub fn write_face(alloc: Global, out: &mut List<u8>, value: &WireFace) -> Result<(), NoMemory>
    requires { FitsFace most_classes value.now }
    ensures ok { OnOk result (out.new ≡ out.old ++ face value.now) }
    ensures err { OnErr result (out.new ≡ out.old) }
{
    let mut spelling = List::new(alloc);
    append_face(&mut spelling, value)?;
    out.extend_from_slice(spelling.as_slice())
}

// After an error a part of the face may have been appended.
fn append_face(out: &mut List<u8>, value: &WireFace) -> Result<(), NoMemory>
    requires { FitsFace most_classes value.now }
    ensures { OnOk result (out.new ≡ out.old ++ face value.now) }
{
    append_text(out, &value.name)?;
    write_u32(out, value.major)?;
    write_u32(out, value.minor)?;
    write_u8(out, value.parents.len() as u8)?;
    append_parents(out, &value.parents)?;
    append_metaclass(out, value.metaclass)?;
    write_u16(out, value.entries.len() as u16)?;
    append_entries(out, &value.entries)
}

fn append_parents(out: &mut List<u8>, parents: &List<u16>) -> Result<(), NoMemory>
    ensures { OnOk result (out.new ≡ out.old ++ flat_map (number w16) parents.now) }
{
    for &parent in parents.as_slice() {
        write_u16(out, parent)?;
    }
    Ok(())
}

fn append_metaclass(out: &mut List<u8>, class: Option<u16>) -> Result<(), NoMemory>
    ensures { OnOk result (out.new ≡ out.old ++ metaclass class) }
{
    match class {
        None => write_u8(out, 0),
        Some(class) => {
            write_u8(out, 1)?;
            write_u16(out, class)
        }
    }
}

fn append_entries(out: &mut List<u8>, entries: &List<WireEntry>) -> Result<(), NoMemory>
    requires { All (FitsEntry most_classes) entries.now }
    ensures { OnOk result (out.new ≡ out.old ++ flat_map entry entries.now) }
{
    for entry in entries.as_slice() {
        append_entry(out, entry)?;
    }
    Ok(())
}
