//! Decodes and encodes a method: the number of a class, and the slot of an entry of it.

ghost use Rattle.std.specs.Prelude.{◌≡◌, ◌<◌, ◌≤◌, ◌^◌, ◌++◌, ℕ, length, slice_index, IfOk, OnOk, OnErr};
ghost use Rattle.som_image_fields.specs.Fields.{Stands, done};
ghost use Rattle.som_image_fields.specs.Spelling.{method, FitsMethod, FitsSomeRanges, AreShort};
ghost use Rattle.som_image_fields.specs.Reading.{method_at};

use crate::number::read_below;
use crate::{ImageFault, Read};
use som_model::{List, NoMemory};

/// A method: the number of a class, and a place in that class's entries.
#[derive(Clone, Copy, PartialEq, Eq)]
pub struct WireMethod {
    pub class: u16,
    pub slot: u16,
}

/// How many classes there are, and how many entries each of them has.
#[derive(Drop)]
pub struct Ranges {
    pub classes: u16,
    pub entries: List<u16>,
}

/// Reads a method at a place.
pub fn read_method(
    bytes: &List<u8>,
    place: usize,
    ranges: &Ranges,
) -> Result<Read<WireMethod>, ImageFault>
    requires place { place ≤ length bytes.now }
    requires entries { length ranges.now.entries ≡ ranges.now.classes }
    ensures found { IfOk result (λ r. Stands bytes.now place (method r.value) r.next ×
        FitsMethod ranges.now r.value) }
    ensures only { (m : _) (next : ℕ) → Stands bytes.now place (method m) next → FitsMethod ranges.now m →
        result ≡ done m next }
    ensures exact { result ≡ method_at ranges.now bytes.now place }
{
    let _all = bytes.as_bytes();
    know_ranges(ranges);
    read_class_and_slot(bytes, place, ranges)
}

// The ranges are numbers of 2 bytes, which a reference and a list alone don't tell a proof.
fn know_ranges(ranges: &Ranges)
    ensures { AreShort ranges.now }
{
    let _classes = ranges.classes;
    know_numbers(ranges.entries.as_slice());
}

fn know_numbers(numbers: &[u16])
    ensures { (i : ℕ) → slice_index numbers.now i < 2 ^ 16 }
{
    let _len = numbers.len();
}

#[tactic(auto, unfolding(crate::specs::Reading::method_at))]
fn read_class_and_slot(
    bytes: &List<u8>,
    place: usize,
    ranges: &Ranges,
) -> Result<Read<WireMethod>, ImageFault>
    requires place { place ≤ length bytes.now }
    requires entries { length ranges.now.entries ≡ ranges.now.classes }
    ensures { result ≡ method_at ranges.now bytes.now place }
{
    let class = read_below(bytes, place, ranges.classes)?;
    let entries = ranges.entries.as_slice();
    let slot = read_below(bytes, class.next, entries[class.value as usize])?;
    Ok(Read {
        value: WireMethod {
            class: class.value,
            slot: slot.value,
        },
        next: slot.next,
    })
}

/// Appends a method: the class's number and the slot, in 2 bytes each.
pub fn write_method(out: &mut List<u8>, value: &WireMethod) -> Result<(), NoMemory>
    requires { FitsSomeRanges value.now }
    ensures ok { OnOk result (out.new ≡ out.old ++ method value.now) }
    ensures err { OnErr result (out.new ≡ out.old) }
{
    let class = value.class.to_be_bytes();
    let slot = value.slot.to_be_bytes();
    out.extend_from_slice(&[class[0], class[1], slot[0], slot[1]])
}
