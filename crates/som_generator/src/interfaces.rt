//! Writes the IDL of the generated releases.

ghost use Rattle.som_generator.specs.Generated.{implementation, interface_line, interfaces_text, methods, only_second, parent, release_order, root, tag_overridden, top_interface};
ghost use Rattle.std.specs.Prelude.{◌≡◌, ◌++◌, IfOk, OnOk};

use crate::edition::Edition;
use crate::words::{add_class_name, add_extra_method, add_if, add_own_method, has_tag};
use som_model::NoMemory;
use std::alloc::Global;

// What stands above G0.
fn root(edition: Edition) -> &'static [u8]
    ensures { result.now ≡ root edition }
{
    match edition {
        Edition::First => b"SOMObject",
        Edition::Second => b"Top",
    }
}

// Writes the parent of the class of a number.
fn add_parent(text: &mut Vec<u8>, edition: Edition, number: u32) -> Result<(), NoMemory>
    ensures { OnOk result (text.new.items ≡ text.old.items ++ parent edition number) }
{
    if number == 0 {
        Ok(text.extend_from_slice(root(edition))?)
    } else {
        add_class_name(text, (number - 1) / 2)
    }
}

// Writes the methods that the class of a number introduces.
fn add_methods(text: &mut Vec<u8>, edition: Edition, number: u32) -> Result<(), NoMemory>
    ensures { OnOk result (text.new.items ≡ text.old.items ++ methods edition number) }
{
    text.extend_from_slice(b" long ")?;
    add_own_method(text, number)?;
    text.extend_from_slice(b"();")?;
    match edition {
        Edition::First => add_if(text, number == 0, b" long tag();"),
        Edition::Second => {
            text.extend_from_slice(b" long ")?;
            add_extra_method(text, number)?;
            Ok(text.extend_from_slice(b"();")?)
        }
    }
}

// Writes the release order of the class of a number.
fn add_release_order(text: &mut Vec<u8>, edition: Edition, number: u32) -> Result<(), NoMemory>
    ensures { OnOk result (text.new.items ≡ text.old.items ++ release_order edition number) }
{
    add_own_method(text, number)?;
    add_if(text, number == 0, b", tag")?;
    match edition {
        Edition::First => Ok(()),
        Edition::Second => {
            text.extend_from_slice(b", ")?;
            add_extra_method(text, number)
        }
    }
}

// Writes that the class of a number overrides `tag`, if it does.
fn add_override(text: &mut Vec<u8>, edition: Edition, number: u32) -> Result<(), NoMemory>
    ensures { OnOk result (text.new.items ≡ text.old.items ++ tag_overridden edition number) }
{
    match edition {
        Edition::First => add_if(text, number % 2 == 1, b" tag: override;"),
        Edition::Second => add_if(text, has_tag(number), b" tag: override;"),
    }
}

// Writes the implementation section of the class of a number.
fn add_implementation(text: &mut Vec<u8>, edition: Edition, number: u32) -> Result<(), NoMemory>
    ensures { OnOk result (text.new.items ≡ text.old.items ++ implementation edition number) }
{
    text.extend_from_slice(b" implementation { releaseorder: ")?;
    add_release_order(text, edition, number)?;
    text.extend_from_slice(b";")?;
    add_override(text, edition, number)?;
    text.extend_from_slice(b" };")?;
    Ok(())
}

// Writes the interface of the class of a number.
fn add_interface(text: &mut Vec<u8>, edition: Edition, number: u32) -> Result<(), NoMemory>
    ensures { OnOk result (text.new.items ≡ text.old.items ++ interface_line edition number) }
{
    text.extend_from_slice(b"interface ")?;
    add_class_name(text, number)?;
    text.extend_from_slice(b" : ")?;
    add_parent(text, edition, number)?;
    text.extend_from_slice(b" {")?;
    add_methods(text, edition, number)?;
    add_implementation(text, edition, number)?;
    text.extend_from_slice(b" };\n")?;
    Ok(())
}

// Writes the class that the second release has first.
fn add_top(text: &mut Vec<u8>, edition: Edition) -> Result<(), NoMemory>
    ensures { OnOk result (text.new.items ≡ text.old.items ++ only_second edition top_interface) }
{
    match edition {
        Edition::First => Ok(()),
        Edition::Second => {
            Ok(text.extend_from_slice(b"interface Top : SOMObject { long tag(); };\n")?)
        }
    }
}

/// The interfaces of a release of so many classes.
pub fn interfaces_text(alloc: Global, edition: Edition, count: u32) -> Result<Vec<u8>, NoMemory>
    ensures { IfOk result (λ text. text.items ≡ interfaces_text edition count) }
{
    let mut text = Vec::new(alloc);
    add_top(&mut text, edition)?;
    for number in 0..count {
        add_interface(&mut text, edition, number)?;
    }
    Ok(text)
}
