//! Writes the main of the generated client, which calls the methods of each class and adds up their answers.

ghost use Rattle.som_generator.specs.Generated.{adding_line, adding_lines, class_name, main_text, own_method};
ghost use Rattle.std.specs.Prelude.{◌≡◌, ◌++◌, IfOk, OnOk, codes};

use crate::words::{add_class_name, add_own_method};
use som_model::NoMemory;
use std::alloc::Global;

// Writes the front of a statement that adds what a method of a new object answers: all that stands before the method.
fn add_object(text: &mut Vec<u8>, number: u32) -> Result<(), NoMemory>
    ensures { OnOk result (text.new.items ≡ text.old.items ++ codes "  s = host wrapadd(s, (new " ++ class_name number ++ codes ").") }
{
    text.extend_from_slice(b"  s = host wrapadd(s, (new ")?;
    add_class_name(text, number)?;
    text.extend_from_slice(b").")?;
    Ok(())
}

// Writes the statement that adds what the method answers that the class of a number introduces.
fn add_own_call(text: &mut Vec<u8>, number: u32) -> Result<(), NoMemory>
    ensures { OnOk result (text.new.items ≡ text.old.items ++ adding_line (class_name number) (own_method number)) }
{
    add_object(text, number)?;
    add_own_method(text, number)?;
    text.extend_from_slice(b"());\n")?;
    Ok(())
}

// Writes the statement that adds what `tag` answers.
fn add_tag_call(text: &mut Vec<u8>, number: u32) -> Result<(), NoMemory>
    ensures { OnOk result (text.new.items ≡ text.old.items ++ adding_line (class_name number) (codes "tag")) }
{
    add_object(text, number)?;
    text.extend_from_slice(b"tag")?;
    text.extend_from_slice(b"());\n")?;
    Ok(())
}

// Writes both statements of the class of a number.
fn add_calls(text: &mut Vec<u8>, number: u32) -> Result<(), NoMemory>
    ensures { OnOk result (text.new.items ≡ text.old.items ++ adding_lines number) }
{
    add_own_call(text, number)?;
    add_tag_call(text, number)
}

/// The main that adds up what the methods of so many classes answer, and prints the sum.
pub fn main_text(alloc: Global, count: u32) -> Result<Vec<u8>, NoMemory>
    ensures { IfOk result (λ text. text.items ≡ main_text count) }
{
    let mut text = Vec::new(alloc);
    text.extend_from_slice(b"main {\n  var s : long = 0;\n")?;
    for number in 0..count {
        add_calls(&mut text, number)?;
    }
    text.extend_from_slice(b"  print s;\n}\n")?;
    Ok(text)
}
