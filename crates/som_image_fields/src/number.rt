//! Decodes and encodes numbers of 1, 2 and 4 bytes.

ghost use Rattle.std.specs.Prelude.{◌≡◌, ◌≤◌, ◌<◌, ◌^◌, ◌++◌, ℕ, length, IfOk, OnOk, OnErr};
ghost use Rattle.std.specs.Int.{w8, w16, w32};
ghost use Rattle.som_image_fields.specs.Fields.{Stands, done};
ghost use Rattle.som_image_fields.specs.Spelling.{number};
ghost use Rattle.som_image_fields.specs.Reading.{number_at, below_at};

use crate::{ImageFault, Read};
use som_model::{List, NoMemory};

/// Reads a number of one byte at a place.
pub fn read_u8(bytes: &List<u8>, place: usize) -> Result<Read<u8>, ImageFault>
    requires { place ≤ length bytes.now }
    ensures found { IfOk result (λ r. Stands bytes.now place (number w8 r.value) r.next × (r.value < 2 ^ 8)) }
    ensures only { (n next : ℕ) → Stands bytes.now place (number w8 n) next → n < 2 ^ 8 → result ≡ done n next }
    ensures exact { result ≡ number_at w8 bytes.now place }
{
    let all = bytes.as_bytes();
    let (_, rest) = all.split_at(place);
    if rest.is_empty() {
        return Err(ImageFault::Cut { offset: all.len() });
    }
    Ok(Read {
        value: rest[0],
        next: place + 1,
    })
}

/// Reads a number of 2 bytes at a place, of which the first is the highest.
pub fn read_u16(bytes: &List<u8>, place: usize) -> Result<Read<u16>, ImageFault>
    requires { place ≤ length bytes.now }
    ensures found { IfOk result (λ r. Stands bytes.now place (number w16 r.value) r.next × (r.value < 2 ^ 16)) }
    ensures only { (n next : ℕ) → Stands bytes.now place (number w16 n) next → n < 2 ^ 16 →
        result ≡ done n next }
    ensures exact { result ≡ number_at w16 bytes.now place }
{
    let all = bytes.as_bytes();
    let (_, rest) = all.split_at(place);
    if rest.len() < 2 {
        return Err(ImageFault::Cut { offset: all.len() });
    }
    Ok(Read {
        value: u16::from_be_bytes([rest[0], rest[1]]),
        next: place + 2,
    })
}

/// Reads a number of 4 bytes at a place, of which the first is the highest.
pub fn read_u32(bytes: &List<u8>, place: usize) -> Result<Read<u32>, ImageFault>
    requires { place ≤ length bytes.now }
    ensures found { IfOk result (λ r. Stands bytes.now place (number w32 r.value) r.next × (r.value < 2 ^ 32)) }
    ensures only { (n next : ℕ) → Stands bytes.now place (number w32 n) next → n < 2 ^ 32 →
        result ≡ done n next }
    ensures exact { result ≡ number_at w32 bytes.now place }
{
    let all = bytes.as_bytes();
    let (_, rest) = all.split_at(place);
    if rest.len() < 4 {
        return Err(ImageFault::Cut { offset: all.len() });
    }
    Ok(Read {
        value: u32::from_be_bytes([rest[0], rest[1], rest[2], rest[3]]),
        next: place + 4,
    })
}

// A number of 2 bytes that is below a limit, as that of a class or a slot.
#[tactic(auto, unfolding(crate::specs::Reading::below_at))]
pub(crate) fn read_below(
    bytes: &List<u8>,
    place: usize,
    limit: u16,
) -> Result<Read<u16>, ImageFault>
    requires { place ≤ length bytes.now }
    ensures exact { result ≡ below_at limit bytes.now place }
    ensures below { IfOk result (λ r. r.value < limit) }
    ensures next { IfOk result (λ r. r.next ≤ length bytes.now) }
{
    let number = read_u16(bytes, place)?;
    if number.value < limit {
        Ok(number)
    } else {
        Err(ImageFault::Number { offset: place })
    }
}

/// Appends a number of one byte.
pub fn write_u8(out: &mut List<u8>, value: u8) -> Result<(), NoMemory>
    ensures ok { OnOk result (out.new ≡ out.old ++ number w8 value) }
    ensures err { OnErr result (out.new ≡ out.old) }
{
    out.extend_from_slice(&value.to_be_bytes())
}

/// Appends a number of 2 bytes, the highest first.
pub fn write_u16(out: &mut List<u8>, value: u16) -> Result<(), NoMemory>
    ensures ok { OnOk result (out.new ≡ out.old ++ number w16 value) }
    ensures err { OnErr result (out.new ≡ out.old) }
{
    out.extend_from_slice(&value.to_be_bytes())
}

/// Appends a number of 4 bytes, the highest first.
pub fn write_u32(out: &mut List<u8>, value: u32) -> Result<(), NoMemory>
    ensures ok { OnOk result (out.new ≡ out.old ++ number w32 value) }
    ensures err { OnErr result (out.new ≡ out.old) }
{
    out.extend_from_slice(&value.to_be_bytes())
}
