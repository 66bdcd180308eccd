//! What is told: faults of images, broken rules, and what levels don't keep.

use crate::refused::Refused;
use som_compat_levels::LevelBreach;
use som_image_fields::ImageFault;
use som_model::{List, NoMemory};
use som_test_queries::{told, told_number};
use som_verify::Broken;
use std::alloc::Global;
use std::io;
use std::io::Write;

/// Prints bytes.
pub fn tell_bytes(rt: &HostRuntime, bytes: &[u8]) -> io::Result<()> {
    io::writer(rt).write_all(bytes)
}

// A line that was made, or why it wasn't.
fn refused(line: Result<List<u8>, NoMemory>) -> Refused {
    match line {
        Ok(line) => Refused::Told(line),
        Err(e) => Refused::from(e),
    }
}

// A number, and a blank before it.
fn told_next(out: &mut List<u8>, number: u32) -> Result<(), NoMemory> {
    told(out, b" ")?;
    told_number(out, number)
}

fn image_line(alloc: Global, name: &[u8], fault: u32, place: u32) -> Result<List<u8>, NoMemory> {
    let mut out = List::new(alloc);
    told(&mut out, b"image")?;
    told_next(&mut out, fault)?;
    told(&mut out, b" ")?;
    told(&mut out, name)?;
    told_next(&mut out, place)?;
    Ok(out)
}

/// An image is refused: by the number of a fault, the name of its file, and a byte.
pub fn refuse_image(alloc: Global, name: &[u8], fault: u32, place: u32) -> Refused {
    refused(image_line(alloc, name, fault, place))
}

// The number of a fault, and its byte.
fn numbered(fault: ImageFault) -> Result<(u32, usize), NoMemory> {
    match fault {
        ImageFault::Magic { offset } => Ok((1, offset)),
        ImageFault::Version { offset } => Ok((2, offset)),
        ImageFault::Cut { offset } => Ok((3, offset)),
        ImageFault::Tag { offset } => Ok((4, offset)),
        ImageFault::Number { offset } => Ok((5, offset)),
        ImageFault::Trailing { offset } => Ok((6, offset)),
        ImageFault::Nesting { offset } => Ok((7, offset)),
        ImageFault::NoMemory => Err(NoMemory),
    }
}

/// An image is refused by a fault of its bytes. A place that four bytes can't tell counts as the last that they can.
pub fn refuse_bytes(alloc: Global, name: &[u8], fault: ImageFault) -> Refused {
    match numbered(fault) {
        Ok((number, offset)) => {
            let place = u32::try_from(offset).unwrap_or(u32::MAX);
            refuse_image(alloc, name, number, place)
        }
        Err(e) => Refused::from(e),
    }
}

fn rule_line(alloc: Global, name: &[u8], broken: &Broken) -> Result<List<u8>, NoMemory> {
    let mut out = List::new(alloc);
    told(&mut out, b"image S")?;
    told_number(&mut out, u32::from(broken.rule))?;
    told(&mut out, b" ")?;
    told(&mut out, name)?;
    told(&mut out, b" ")?;
    told(&mut out, broken.class.as_slice())?;
    told(&mut out, b" ")?;
    told(&mut out, broken.member.as_slice())?;
    Ok(out)
}

/// An image is refused by a rule that it breaks.
pub fn refuse_rule(alloc: Global, name: &[u8], broken: &Broken) -> Refused {
    refused(rule_line(alloc, name, broken))
}

fn breach_line(alloc: Global, breach: &LevelBreach) -> Result<List<u8>, NoMemory> {
    let mut out = List::new(alloc);
    told(&mut out, b"incompatible K")?;
    told_number(&mut out, u32::from(breach.rule))?;
    told(&mut out, b" ")?;
    told(&mut out, breach.class.as_slice())?;
    told(&mut out, b" ")?;
    told(&mut out, breach.name.as_slice())?;
    told_next(&mut out, breach.place)?;
    told(&mut out, b" at level")?;
    told_next(&mut out, u32::from(breach.level))?;
    Ok(out)
}

/// Levels are refused by what they don't keep.
pub fn refuse_levels(alloc: Global, breach: &LevelBreach) -> Refused {
    refused(breach_line(alloc, breach))
}
