//! Decodes and encodes the head of a tower image: the number of levels below, what stands above them, and their sizes.

ghost use Rattle.som_image_fields.specs.Fields.{Gives, many_at};
ghost use Rattle.som_image_fields.specs.Reading.{number_at};
ghost use Rattle.som_towerimage.specs.Reading.{below_at, flag_at, sizes_at};
ghost use Rattle.som_towerimage.specs.Spelling.{most_below, tower_head};
ghost use Rattle.std.specs.Int.{w16};
ghost use Rattle.std.specs.Prelude.{◌≡◌, ◌≤◌, length, sum, IfOk};

use crate::level::{MAX_BELOW_CLIENT, MAX_BELOW_LIBRARY};
use som_image_classes::new_image;
use som_image_fields::{ImageFault, Read, read_many, read_u8, read_u16, write_u8, write_u16};
use som_model::{List, NoMemory};
use std::alloc::Global;

/// The bytes that a tower image begins with.
pub(crate) const MAGIC: &[u8] = b"SOMT";

/// The only version of tower images.
pub(crate) const VERSION: u8 = 1;

/// Reads how many levels are below.
pub(crate) fn read_below(bytes: &List<u8>, place: usize) -> Result<Read<u8>, ImageFault>
    requires { place ≤ length bytes.now }
    ensures exact { result ≡ below_at bytes.now place }
    ensures next { IfOk result (λ r. r.next ≤ length bytes.now) }
    ensures few { IfOk result (λ r. r.value ≤ 8) }
{
    let below = read_u8(bytes, place)?;
    if 1 <= below.value && below.value <= MAX_BELOW_CLIENT {
        Ok(below)
    } else {
        Err(ImageFault::Number { offset: place })
    }
}

/// Reads whether this is a client, which may have one level more below than a library.
pub(crate) fn read_flag(bytes: &List<u8>, place: usize, below: u8) -> Result<Read<bool>, ImageFault>
    requires { place ≤ length bytes.now }
    ensures exact { result ≡ flag_at below bytes.now place }
    ensures next { IfOk result (λ r. r.next ≤ length bytes.now) }
{
    let flag = read_u8(bytes, place)?;
    if flag.value == 1 {
        Ok(Read {
            value: true,
            next: flag.next,
        })
    } else if flag.value == 0 && below <= MAX_BELOW_LIBRARY {
        Ok(Read {
            value: false,
            next: flag.next,
        })
    } else {
        Err(ImageFault::Tag { offset: place })
    }
}

fn read_each_size(
    alloc: Global,
    bytes: &List<u8>,
    place: usize,
    below: u8,
) -> Result<Read<List<u16>>, ImageFault>
    requires { place ≤ length bytes.now }
    ensures exact { Gives result (sizes_at below bytes.now place) }
    ensures next { IfOk result (λ r. r.next ≤ length bytes.now) }
{
    read_many(
        alloc,
        bytes,
        u32::from(below),
        place,
        |p: usize| -> Result<Read<u16>, ImageFault>
            requires { p ≤ length bytes.now }
            ensures exact { Gives result (number_at w16 bytes.entry.now p) }
            ensures next { IfOk result (λ r. r.next ≤ length bytes.entry.now) }
        { read_u16(bytes, p) },
    )
}

/// Reads how many classes each of so many levels has.
pub(crate) fn read_sizes(
    alloc: Global,
    bytes: &List<u8>,
    place: usize,
    below: u8,
) -> Result<Read<List<u16>>, ImageFault>
    requires { place ≤ length bytes.now }
    ensures exact { Gives result (sizes_at below bytes.now place) }
    ensures next { IfOk result (λ r. r.next ≤ length bytes.now) }
    ensures many { IfOk result (λ r. length r.value ≡ below) }
{
    let _all = bytes.as_bytes();
    read_each_size(alloc, bytes, place, below)
}

/// How many classes levels have together.
pub(crate) fn classes_of(sizes: &List<u16>) -> u32
    requires { length sizes.now ≤ 8 }
    ensures { result ≡ sum sizes.now }
{
    let mut classes = 0;
    for size in sizes.as_slice() {
        classes += u32::from(*size);
    }
    classes
}

/// The head of a tower image.
pub(crate) fn new_tower(
    alloc: Global,
    sizes: &List<u16>,
    client: bool,
) -> Result<List<u8>, NoMemory>
    requires { length sizes.now ≤ most_below client }
    ensures { IfOk result (λ image. image ≡ tower_head sizes.now client) }
{
    let mut image = new_image(alloc, MAGIC, VERSION)?;
    write_u8(&mut image, sizes.len() as u8)?;
    image.push(u8::from(client))?;
    for size in sizes.as_slice() {
        write_u16(&mut image, *size)?;
    }
    Ok(image)
}
