//! Makes the lines that refuse an image: bytes at fault, a broken rule, or a promise that isn't kept.

ghost use Rattle.som_verify_classes.specs.Told.{told};
ghost use Rattle.som_cmd_steps.specs.Lines.{broken, fault_number, fault_place, incompatible, not_kept, or_dash, unread};
ghost use Rattle.som_compat.specs.Told.{told as breach_told};
ghost use Rattle.std.specs.Prelude.{IfOk, option_copied, ◌≡◌};

use crate::stop::{Refusal, Why};
use som_compat::Breach;
use som_image_fields::ImageFault;
use som_model::{NoMemory, Text};
use som_show::add_number;
use som_verify_classes::Broken;
use std::alloc::Global;

fn number_of(fault: ImageFault) -> u64
    ensures { result ≡ fault_number fault }
{
    match fault {
        ImageFault::Magic { .. } => 1,
        ImageFault::Version { .. } => 2,
        ImageFault::Cut { .. } => 3,
        ImageFault::Tag { .. } => 4,
        ImageFault::Number { .. } => 5,
        ImageFault::Trailing { .. } => 6,
        ImageFault::Nesting { .. } => 7,
        ImageFault::NoMemory => 0,
    }
}

fn place_of(fault: ImageFault) -> usize
    ensures { result ≡ fault_place fault }
{
    match fault {
        ImageFault::Magic { offset }
        | ImageFault::Version { offset }
        | ImageFault::Cut { offset }
        | ImageFault::Tag { offset }
        | ImageFault::Number { offset }
        | ImageFault::Trailing { offset }
        | ImageFault::Nesting { offset } => offset,
        ImageFault::NoMemory => 0,
    }
}

/// The refusal of bytes that can't be read.
pub fn refuse_bytes(alloc: Global, name: &Text, fault: ImageFault) -> Result<Refusal, NoMemory>
    ensures { IfOk result (λ r. r ≡ unread name.now fault) }
{
    let mut line = Vec::new(alloc);
    line.extend_from_slice(b"image ")?;
    add_number(&mut line, number_of(fault))?;
    line.push(b' ')?;
    line.extend_from_slice(name.as_slice())?;
    line.push(b' ')?;
    add_number(&mut line, place_of(fault) as u64)?;
    line.push(b'\n')?;
    Ok(Refusal {
        line: Text::from_vec(line),
        why: Why::Image,
    })
}

/// The refusal of what breaks a rule.
pub fn refuse_broken(alloc: Global, name: &Text, rule: &Broken) -> Result<Refusal, NoMemory>
    ensures { IfOk result (λ r. r ≡ broken name.now (told rule.now)) }
{
    let mut line = Vec::new(alloc);
    line.extend_from_slice(b"image S")?;
    add_number(&mut line, u64::from(rule.rule))?;
    line.push(b' ')?;
    line.extend_from_slice(name.as_slice())?;
    line.push(b' ')?;
    line.extend_from_slice(rule.class.as_slice())?;
    line.push(b' ')?;
    line.extend_from_slice(rule.member.as_slice())?;
    line.push(b'\n')?;
    Ok(Refusal {
        line: Text::from_vec(line),
        why: Why::Image,
    })
}

/// The refusal of a newer image that breaks a rule on what is promised: the rule, the old class, the name of what is lost or changed,
/// and its place.
pub fn refuse_incompatible(
    alloc: Global,
    image: &Text,
    rule: u8,
    class: &Text,
    name: &[u8],
    place: u32,
) -> Result<Refusal, NoMemory>
    ensures { IfOk result (λ r. r ≡ incompatible image.now rule class.now name.now place) }
{
    let mut line = Vec::new(alloc);
    line.extend_from_slice(b"incompatible K")?;
    add_number(&mut line, u64::from(rule))?;
    line.push(b' ')?;
    line.extend_from_slice(class.as_slice())?;
    line.push(b' ')?;
    line.extend_from_slice(name)?;
    line.push(b' ')?;
    add_number(&mut line, u64::from(place))?;
    line.extend_from_slice(b" in ")?;
    line.extend_from_slice(image.as_slice())?;
    line.push(b'\n')?;
    Ok(Refusal {
        line: Text::from_vec(line),
        why: Why::Incompatible,
    })
}

// A name, or a dash where it doesn't apply.
fn or_dash<'a>(name: Option<&'a Text>) -> &'a [u8]
    ensures { result.now ≡ or_dash (option_copied name.entry) }
{
    match name {
        Some(name) => name.as_slice(),
        None => b"-",
    }
}

/// The refusal that tells what a newer image doesn't keep.
pub fn refuse_breach(alloc: Global, image: &Text, breach: &Breach<'_>) -> Result<Refusal, NoMemory>
    ensures { IfOk result (λ r. r ≡ not_kept image.now (breach_told breach.now)) }
{
    refuse_incompatible(
        alloc,
        image,
        breach.rule,
        breach.class,
        or_dash(breach.name),
        breach.place,
    )
}
