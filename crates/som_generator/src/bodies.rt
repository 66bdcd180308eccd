//! Writes the bodies files of the generated releases.

ghost use Rattle.som_generator.specs.Generated.{bodies_text, body_lines, extra_method, has_tag, only_if, only_second, own_method, returns_number, top_body};
ghost use Rattle.std.specs.Prelude.{[], ◌≡◌, ◌++◌, ◌∷◌, IfOk, OnOk, codes};
ghost use Rattle.std.specs.Fmt.{decimal};

use crate::edition::Edition;
use crate::words::{add_class_name, add_extra_method, add_own_method, has_tag};
use som_model::NoMemory;
use som_show::add_number;
use std::alloc::Global;

// Writes the end of a body that returns a number.
fn add_return(text: &mut Vec<u8>, number: u32) -> Result<(), NoMemory>
    ensures { OnOk result (text.new.items ≡ text.old.items ++ codes "() { return " ++ decimal number ++ codes "; }" ++ 10 ∷ []) }
{
    text.extend_from_slice(b"() { return ")?;
    add_number(text, u64::from(number))?;
    text.extend_from_slice(b"; }\n")?;
    Ok(())
}

// Writes the body of the method that the class of a number introduces in both releases.
fn add_own_body(text: &mut Vec<u8>, number: u32) -> Result<(), NoMemory>
    ensures { OnOk result (text.new.items ≡ text.old.items ++ returns_number number (own_method number)) }
{
    add_class_name(text, number)?;
    text.extend_from_slice(b"::")?;
    add_own_method(text, number)?;
    add_return(text, number)
}

// Writes its body for `tag`, if it has one.
fn add_tag_body(text: &mut Vec<u8>, number: u32) -> Result<(), NoMemory>
    ensures { OnOk result (text.new.items ≡ text.old.items ++ only_if (has_tag number) (returns_number number (codes "tag"))) }
{
    if has_tag(number) {
        add_class_name(text, number)?;
        text.extend_from_slice(b"::tag")?;
        add_return(text, number)?;
    }
    Ok(())
}

// Writes the body of the method that it introduces in the second release alone.
fn add_extra_body(text: &mut Vec<u8>, edition: Edition, number: u32) -> Result<(), NoMemory>
    ensures { OnOk result (text.new.items ≡ text.old.items ++ only_second edition (returns_number number (extra_method number))) }
{
    match edition {
        Edition::First => Ok(()),
        Edition::Second => {
            add_class_name(text, number)?;
            text.extend_from_slice(b"::")?;
            add_extra_method(text, number)?;
            add_return(text, number)
        }
    }
}

// Writes the bodies of the class of a number.
fn add_bodies(text: &mut Vec<u8>, edition: Edition, number: u32) -> Result<(), NoMemory>
    ensures { OnOk result (text.new.items ≡ text.old.items ++ body_lines edition number) }
{
    add_own_body(text, number)?;
    add_tag_body(text, number)?;
    add_extra_body(text, edition, number)
}

// Writes the body of the class that the second release has first.
fn add_top(text: &mut Vec<u8>, edition: Edition) -> Result<(), NoMemory>
    ensures { OnOk result (text.new.items ≡ text.old.items ++ only_second edition top_body) }
{
    match edition {
        Edition::First => Ok(()),
        Edition::Second => Ok(text.extend_from_slice(b"Top::tag() { return -1; }\n")?),
    }
}

/// The bodies of a release of so many classes.
pub fn bodies_text(alloc: Global, edition: Edition, count: u32) -> Result<Vec<u8>, NoMemory>
    ensures { IfOk result (λ text. text.items ≡ bodies_text edition count) }
{
    let mut text = Vec::new(alloc);
    add_top(&mut text, edition)?;
    for number in 0..count {
        add_bodies(&mut text, edition, number)?;
    }
    Ok(text)
}
