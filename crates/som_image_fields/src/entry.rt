//! Decodes and encodes an entry of a release order: its name, and a signature or the class it was moved to.

ghost use Rattle.std.specs.Prelude.{◌≡◌, ◌≤◌, [], ◌∷◌, ◌++◌, ℕ, length, IfOk, OnOk, OnErr};
ghost use Rattle.som_image_fields.specs.Fields.{Stands, Gives, done};
ghost use Rattle.som_image_fields.specs.Spelling.{entry, FitsEntry, way as way_of, most_classes};
ghost use Rattle.som_image_fields.specs.Reading.{entry_at};

use crate::number::read_below;
use crate::sig::append_sig;
use crate::text::append_text;
use crate::{ImageFault, Read, WireSig, read_sig, read_text, read_u8, write_u8, write_u16};
use som_model::{List, NoMemory, Text, Way};
use std::alloc::Global;

/// An entry of a release order: a method that the class introduces, or one that was moved up to an ancestor.
#[derive(Drop)]
pub enum WireEntry {
    Introduced { name: Text, sig: WireSig, way: Way },
    Moved { name: Text, to: u16 },
}

/// Reads an entry at a place.
pub fn read_entry(
    alloc: Global,
    bytes: &List<u8>,
    place: usize,
    classes: u16,
) -> Result<Read<WireEntry>, ImageFault>
    requires { place ≤ length bytes.now }
    ensures found { IfOk result (λ r. Stands bytes.now place (entry r.value) r.next × FitsEntry classes r.value) }
    ensures only { (e : _) (next : ℕ) → Stands bytes.now place (entry e) next → FitsEntry classes e →
        Gives result (done e next) }
    ensures exact { Gives result (entry_at classes bytes.now place) }
{
    let _all = bytes.as_bytes();
    read_named(alloc, bytes, place, classes)
}

// A name, a flag, and what the flag says.
#[tactic(auto, unfolding(crate::specs::Reading::entry_at))]
fn read_named(
    alloc: Global,
    bytes: &List<u8>,
    place: usize,
    classes: u16,
) -> Result<Read<WireEntry>, ImageFault>
    requires { place ≤ length bytes.now }
    ensures { Gives result (entry_at classes bytes.now place) }
{
    let name = read_text(alloc, bytes, place)?;
    let flag = read_u8(bytes, name.next)?;
    let way = match flag.value {
        0 => Way::Offset,
        1 => Way::Lookup,
        2 => {
            let to = read_below(bytes, flag.next, classes)?;
            return Ok(Read {
                value: WireEntry::Moved {
                    name: name.value,
                    to: to.value,
                },
                next: to.next,
            });
        }
        _ => return Err(ImageFault::Tag { offset: name.next }),
    };
    let sig = read_sig(alloc, bytes, flag.next, classes)?;
    Ok(Read {
        value: WireEntry::Introduced {
            name: name.value,
            sig: sig.value,
            way,
        },
        next: sig.next,
    })
}

/// Appends an entry. It is spelled in a list of its own first, so that want of memory leaves `out` as it was.
pub fn write_entry(alloc: Global, out: &mut List<u8>, value: &WireEntry) -> Result<(), NoMemory>
    requires { FitsEntry most_classes value.now }
    ensures ok { OnOk result (out.new ≡ out.old ++ entry value.now) }
    ensures err { OnErr result (out.new ≡ out.old) }
{
    let mut spelling = List::new(alloc);
    append_entry(&mut spelling, value)?;
    out.extend_from_slice(spelling.as_slice())
}

// After an error a part of the entry may have been appended.
pub(crate) fn append_entry(out: &mut List<u8>, value: &WireEntry) -> Result<(), NoMemory>
    requires { FitsEntry most_classes value.now }
    ensures { OnOk result (out.new ≡ out.old ++ entry value.now) }
{
    match value {
        WireEntry::Introduced { name, sig, way } => {
            append_text(out, name)?;
            write_u8(out, flag_of(*way))?;
            append_sig(out, sig)
        }
        WireEntry::Moved { name, to } => {
            append_text(out, name)?;
            write_u8(out, 2)?;
            write_u16(out, *to)
        }
    }
}

fn flag_of(way: Way) -> u8
    ensures { way_of way ≡ result ∷ [] }
{
    match way {
        Way::Offset => 0,
        Way::Lookup => 1,
    }
}
