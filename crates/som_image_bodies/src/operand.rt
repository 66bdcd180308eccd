//! Decodes small operands: signed numbers, classes, operators, truth values and procedures of the host.

ghost use Rattle.som_wire.specs.Reading.{host_at, operator_at, signed_at, truth_at};
ghost use Rattle.som_image_fields.specs.Reading.{below_at};
ghost use Rattle.std.specs.Prelude.{◌≡◌, ◌<◌, ◌≤◌, length, IfOk};

use som_image_fields::{ImageFault, Read, read_u8, read_u16, read_u32};
use som_model::{HostCode, List};

#[tactic(auto, unfolding(som_wire::specs::Reading::signed_at))]
pub(crate) fn read_signed(bytes: &List<u8>, place: usize) -> Result<Read<i32>, ImageFault>
    requires { place ≤ length bytes.now }
    ensures exact { result ≡ signed_at bytes.now place }
    ensures next { IfOk result (λ r. r.next ≤ length bytes.now) }
{
    let number = read_u32(bytes, place)?;
    Ok(Read {
        value: number.value.cast_signed(),
        next: number.next,
    })
}

// The number of a class.
#[tactic(auto, unfolding(som_image_fields::specs::Reading::below_at))]
pub(crate) fn read_class(
    bytes: &List<u8>,
    place: usize,
    classes: u16,
) -> Result<Read<u16>, ImageFault>
    requires { place ≤ length bytes.now }
    ensures exact { result ≡ below_at classes bytes.now place }
    ensures next { IfOk result (λ r. r.next ≤ length bytes.now) }
    ensures below { IfOk result (λ r. r.value < classes) }
{
    let number = read_u16(bytes, place)?;
    if number.value < classes {
        Ok(number)
    } else {
        Err(ImageFault::Number { offset: place })
    }
}

// The number of an operator, below how many there are.
#[tactic(auto, unfolding(som_wire::specs::Reading::operator_at))]
pub(crate) fn read_operator(
    bytes: &List<u8>,
    place: usize,
    limit: u8,
) -> Result<Read<u8>, ImageFault>
    requires { place ≤ length bytes.now }
    ensures exact { result ≡ operator_at limit bytes.now place }
    ensures next { IfOk result (λ r. r.next ≤ length bytes.now) }
{
    let number = read_u8(bytes, place)?;
    if number.value < limit {
        Ok(number)
    } else {
        Err(ImageFault::Tag { offset: place })
    }
}

#[tactic(auto, unfolding(som_wire::specs::Reading::truth_at))]
pub(crate) fn read_truth(bytes: &List<u8>, place: usize) -> Result<Read<bool>, ImageFault>
    requires { place ≤ length bytes.now }
    ensures exact { result ≡ truth_at bytes.now place }
    ensures next { IfOk result (λ r. r.next ≤ length bytes.now) }
{
    let flag = read_u8(bytes, place)?;
    let value = match flag.value {
        0 => false,
        1 => true,
        _ => return Err(ImageFault::Tag { offset: place }),
    };
    Ok(Read {
        value,
        next: flag.next,
    })
}

#[tactic(auto, unfolding(som_wire::specs::Reading::host_at))]
pub(crate) fn read_host(bytes: &List<u8>, place: usize) -> Result<Read<HostCode>, ImageFault>
    requires { place ≤ length bytes.now }
    ensures exact { result ≡ host_at bytes.now place }
    ensures next { IfOk result (λ r. r.next ≤ length bytes.now) }
{
    let code = read_u8(bytes, place)?;
    let value = match code.value {
        0 => HostCode::Min,
        1 => HostCode::Max,
        2 => HostCode::And,
        3 => HostCode::Or,
        4 => HostCode::Xor,
        5 => HostCode::WrapAdd,
        _ => return Err(ImageFault::Tag { offset: place }),
    };
    Ok(Read {
        value,
        next: code.next,
    })
}
