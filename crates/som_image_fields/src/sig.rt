//! Decodes and encodes the signature of a method: its result, and its parameters after their number.

ghost use Rattle.std.specs.Prelude.{◌≡◌, ◌≤◌, ◌++◌, ℕ, true, false, length, All, IfOk, OnOk, OnErr};
ghost use Rattle.std.specs.List.{flat_map};
ghost use Rattle.som_image_fields.specs.Fields.{Stands, Gives, done, many_at};
ghost use Rattle.som_image_fields.specs.Spelling.{kind, FitsKind, sig, FitsSig, most_classes};
ghost use Rattle.som_image_fields.specs.Reading.{kind_at, sig_at};

use crate::{ImageFault, Read, WireType, read_many, read_type, read_u8, write_type, write_u8};
use som_model::{List, MAX_PARAMETERS, NoMemory};
use std::alloc::Global;

/// The signature of a method.
#[derive(Drop)]
pub struct WireSig {
    pub result: WireType,
    pub params: List<WireType>,
}

/// Reads a signature at a place.
pub fn read_sig(
    alloc: Global,
    bytes: &List<u8>,
    place: usize,
    classes: u16,
) -> Result<Read<WireSig>, ImageFault>
    requires { place ≤ length bytes.now }
    ensures found { IfOk result (λ r. Stands bytes.now place (sig r.value) r.next × FitsSig classes r.value) }
    ensures only { (s : _) (next : ℕ) → Stands bytes.now place (sig s) next → FitsSig classes s →
        Gives result (done s next) }
    ensures exact { Gives result (sig_at classes bytes.now place) }
{
    let _all = bytes.as_bytes();
    read_result_and_params(alloc, bytes, place, classes)
}

#[tactic(auto, unfolding(crate::specs::Reading::sig_at))]
fn read_result_and_params(
    alloc: Global,
    bytes: &List<u8>,
    place: usize,
    classes: u16,
) -> Result<Read<WireSig>, ImageFault>
    requires { place ≤ length bytes.now }
    ensures { Gives result (sig_at classes bytes.now place) }
{
    let result_type = read_type(bytes, place, classes, true)?;
    let count = read_u8(bytes, result_type.next)?;
    if u32::from(count.value) > MAX_PARAMETERS {
        return Err(ImageFault::Number {
            offset: result_type.next,
        });
    }
    let params = read_params(alloc, bytes, count.value, count.next, classes)?;
    Ok(Read {
        value: WireSig {
            result: result_type.value,
            params: params.value,
        },
        next: params.next,
    })
}

fn read_params(
    alloc: Global,
    bytes: &List<u8>,
    count: u8,
    place: usize,
    classes: u16,
) -> Result<Read<List<WireType>>, ImageFault>
    requires { place ≤ length bytes.now }
    ensures exact { Gives result (many_at (kind_at classes false bytes.now) count place) }
    ensures next { IfOk result (λ r. r.next ≤ length bytes.now) }
{
    read_many(
        alloc,
        bytes,
        u32::from(count),
        place,
        |p: usize| -> Result<Read<WireType>, ImageFault>
            requires { p ≤ length bytes.now }
            ensures exact { Gives result (kind_at classes false bytes.entry.now p) }
            ensures next { IfOk result (λ r. r.next ≤ length bytes.entry.now) }
        { read_type(bytes, p, classes, false) },
    )
}

/// Appends a signature. It is spelled in a list of its own first, so that want of memory leaves `out` as it was.
pub fn write_sig(alloc: Global, out: &mut List<u8>, value: &WireSig) -> Result<(), NoMemory>
    requires { FitsSig most_classes value.now }
    ensures ok { OnOk result (out.new ≡ out.old ++ sig value.now) }
    ensures err { OnErr result (out.new ≡ out.old) }
{
    let mut spelling = List::new(alloc);
    append_sig(&mut spelling, value)?;
    out.extend_from_slice(spelling.as_slice())
}

// After an error a part of the signature may have been appended.
pub(crate) fn append_sig(out: &mut List<u8>, value: &WireSig) -> Result<(), NoMemory>
    requires { FitsSig most_classes value.now }
    ensures { OnOk result (out.new ≡ out.old ++ sig value.now) }
{
    write_type(out, &value.result)?;
    write_u8(out, value.params.len() as u8)?;
    append_params(out, &value.params)
}

fn append_params(out: &mut List<u8>, params: &List<WireType>) -> Result<(), NoMemory>
    requires { All (FitsKind most_classes false) params.now }
    ensures { OnOk result (out.new ≡ out.old ++ flat_map kind params.now) }
{
    for param in params.as_slice() {
        write_type(out, param)?;
    }
    Ok(())
}
