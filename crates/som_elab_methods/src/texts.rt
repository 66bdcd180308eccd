//! The bodies of all files, and the first for a method of a class.

ghost use Rattle.som_elab_methods.specs.Bodies.{bodies_of, texts_for};
ghost use Rattle.som_elab_methods.specs.Texts.{given};
ghost use Rattle.som_model.specs.Lists.{first};
ghost use Rattle.std.specs.Prelude.{◌≡◌, ◌++◌, ◌&&◌, option_copied, IfOk, OnOk};
ghost use Rattle.std.specs.Str.{bytes_eq};

use som_ast::{BodyFile, BodyText};
use som_model::NoMemory;
use std::alloc::Global;

/// The bodies of all files, in order.
pub fn all_texts<'a>(alloc: Global, files: &'a [BodyFile]) -> Result<Vec<&'a BodyText>, NoMemory>
    ensures { IfOk result (λ all. given all.items ≡ bodies_of files.now) }
{
    let mut all = Vec::new(alloc);
    for file in files {
        add_texts(&mut all, file.bodies.as_slice())?;
    }
    Ok(all)
}

fn add_texts<'a>(all: &mut Vec<&'a BodyText>, texts: &'a [BodyText]) -> Result<(), NoMemory>
    ensures { OnOk result (given all.new.items ≡ given all.old.items ++ texts.now) }
{
    for text in texts {
        all.push(text)?;
    }
    Ok(())
}

/// The first body for a method of a class.
pub fn first_for<'a>(texts: &[&'a BodyText], class: &[u8], method: &[u8]) -> Option<&'a BodyText>
    ensures { option_copied result ≡ first (texts_for (given texts.now) class.now method.now) }
{
    for text in texts {
        let text: &'a BodyText = *text;
        if is_for(text, class, method) {
            return Some(text);
        }
    }
    None
}

fn is_for(text: &BodyText, class: &[u8], method: &[u8]) -> bool
    ensures { result ≡ (bytes_eq text.now.class.text class.now && bytes_eq text.now.method.text method.now) }
{
    text.class.text.as_slice() == class && text.method.text.as_slice() == method
}
