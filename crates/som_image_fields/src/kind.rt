//! Decodes and encodes a type: a tag, and after that of a class the class's number.

ghost use Rattle.std.specs.Prelude.{◌≡◌, ◌≤◌, ◌++◌, ℕ, true, length, IfOk, OnOk, OnErr};
ghost use Rattle.som_image_fields.specs.Fields.{Stands, done};
ghost use Rattle.som_image_fields.specs.Spelling.{kind, FitsKind, most_classes};
ghost use Rattle.som_image_fields.specs.Reading.{kind_at};

use crate::number::read_below;
use crate::{ImageFault, Read, read_u8, write_u8};
use som_model::{List, NoMemory};

/// The type of a value, or of none. A class goes by its number.
#[derive(Clone, Copy, PartialEq, Eq)]
pub enum WireType {
    Void,
    Long,
    Boolean,
    Str,
    Class(u16),
}

/// Reads the type of a parameter, or of a result, at a place.
pub fn read_type(
    bytes: &List<u8>,
    place: usize,
    classes: u16,
    is_result: bool,
) -> Result<Read<WireType>, ImageFault>
    requires { place ≤ length bytes.now }
    ensures found { IfOk result (λ r. Stands bytes.now place (kind r.value) r.next ×
        FitsKind classes is_result r.value) }
    ensures only { (k : _) (next : ℕ) → Stands bytes.now place (kind k) next → FitsKind classes is_result k →
        result ≡ done k next }
    ensures exact { result ≡ kind_at classes is_result bytes.now place }
{
    let _all = bytes.as_bytes();
    read_tagged(bytes, place, classes, is_result)
}

// A tag, and a class after the tag 4.
#[tactic(auto, unfolding(crate::specs::Reading::kind_at))]
fn read_tagged(
    bytes: &List<u8>,
    place: usize,
    classes: u16,
    is_result: bool,
) -> Result<Read<WireType>, ImageFault>
    requires { place ≤ length bytes.now }
    ensures { result ≡ kind_at classes is_result bytes.now place }
{
    let tag = read_u8(bytes, place)?;
    let value = match tag.value {
        0 if is_result => WireType::Void,
        1 => WireType::Long,
        2 => WireType::Boolean,
        3 => WireType::Str,
        4 => {
            let class = read_below(bytes, tag.next, classes)?;
            return Ok(Read {
                value: WireType::Class(class.value),
                next: class.next,
            });
        }
        _ => return Err(ImageFault::Tag { offset: place }),
    };
    Ok(Read {
        value,
        next: tag.next,
    })
}

/// Appends a type: its tag, and after the tag of a class the class's number in 2 bytes.
pub fn write_type(out: &mut List<u8>, value: &WireType) -> Result<(), NoMemory>
    requires { FitsKind most_classes true value.now }
    ensures ok { OnOk result (out.new ≡ out.old ++ kind value.now) }
    ensures err { OnErr result (out.new ≡ out.old) }
{
    match *value {
        WireType::Void => write_u8(out, 0),
        WireType::Long => write_u8(out, 1),
        WireType::Boolean => write_u8(out, 2),
        WireType::Str => write_u8(out, 3),
        WireType::Class(class) => {
            let number = class.to_be_bytes();
            out.extend_from_slice(&[4, number[0], number[1]])
        }
    }
}
