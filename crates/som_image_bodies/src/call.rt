//! Decodes calls, which stand as expressions and as statements, with a count of the levels that are left.

ghost use Rattle.som_image_bodies.specs.NamedReading.{named_call_at};
ghost use Rattle.som_wire.specs.Reading.{is_call_tag, too_deep};
ghost use Rattle.som_image_decode.specs.Naming.{ranges_in};
ghost use Rattle.som_image_fields.specs.Fields.{Gives};
ghost use Rattle.std.specs.Prelude.{◌≡◌, ◌≤◌, length, IfOk};

use crate::pair::read_tagged_call;
use som_image_decode::Directory;
use som_image_fields::{ImageFault, Ranges, Read, read_u8};
use som_model::{Expr, List};
use std::alloc::Global;

// A call where no more level is left.
fn read_deep_call(bytes: &List<u8>, place: usize) -> Result<Read<Expr>, ImageFault>
    requires { place ≤ length bytes.now }
    ensures exact { result ≡ too_deep is_call_tag bytes.now place }
    ensures next { IfOk result (λ r. r.next ≤ length bytes.now) }
{
    let tag = read_u8(bytes, place)?;
    if 0x2f <= tag.value && tag.value <= 0x33 {
        Err(ImageFault::Nesting { offset: place })
    } else {
        Err(ImageFault::Tag { offset: place })
    }
}

/// Reads a call at a place, where so many levels are left.
#[tactic(auto, unfolding(crate::specs::NamedReading::named_call_at))]
pub(crate) fn read_call(
    alloc: Global,
    bytes: &List<u8>,
    place: usize,
    directory: &Directory,
    ranges: &Ranges,
    left: u8,
) -> Result<Read<Expr>, ImageFault>
    requires place { place ≤ length bytes.now }
    requires entries { length ranges.now.entries ≡ ranges.now.classes }
    requires ranges { ranges.now ≡ ranges_in directory.now }
    ensures exact { Gives result (named_call_at directory.now left ranges.now bytes.now place) }
    ensures next { IfOk result (λ r. r.next ≤ length bytes.now) }
{
    if left == 0 {
        return read_deep_call(bytes, place);
    }
    let tag = read_u8(bytes, place)?;
    read_tagged_call(alloc, bytes, directory, ranges, left - 1, &tag, place)
}
