//! Puts names to the generated texts: interfaces, bodies and main.

ghost use Rattle.som_generator.specs.Generated.{release_number};
ghost use Rattle.som_generator.specs.Texts.{client_texts, library_texts};
ghost use Rattle.std.specs.Prelude.{◌≡◌, ◌++◌, IfOk, codes};

use crate::{Edition, bodies_text, interfaces_text, main_text};
use som_model::{List, NoMemory, Text};
use som_sources::Source;
use std::alloc::Global;

// A text under a name.
fn source(alloc: Global, name: &[u8], bytes: Vec<u8>) -> Result<Source, NoMemory>
    ensures { IfOk result (λ s. s ≡ record { name = name.now; bytes = bytes.items }) }
{
    Ok(Source {
        name: Text::from_slice(alloc, name)?,
        bytes: List::from_vec(bytes),
    })
}

fn interfaces_name(edition: Edition) -> &'static [u8]
    ensures { result.now ≡ release_number edition ++ codes ".idl" }
{
    match edition {
        Edition::First => b"1.idl",
        Edition::Second => b"2.idl",
    }
}

fn bodies_name(edition: Edition) -> &'static [u8]
    ensures { result.now ≡ release_number edition ++ codes ".bod" }
{
    match edition {
        Edition::First => b"1.bod",
        Edition::Second => b"2.bod",
    }
}

/// The texts of a release of so many classes.
pub fn library_texts(alloc: Global, edition: Edition, count: u32) -> Result<List<Source>, NoMemory>
    ensures { IfOk result (λ texts. texts ≡ library_texts edition count) }
{
    let interfaces = interfaces_text(alloc, edition, count)?;
    let bodies = bodies_text(alloc, edition, count)?;
    let mut texts = List::new(alloc);
    texts.push(source(alloc, interfaces_name(edition), interfaces)?)?;
    texts.push(source(alloc, bodies_name(edition), bodies)?)?;
    Ok(texts)
}

/// The text of a client that uses each of so many classes.
pub fn client_texts(alloc: Global, count: u32) -> Result<List<Source>, NoMemory>
    ensures { IfOk result (λ texts. texts ≡ client_texts count) }
{
    let main = main_text(alloc, count)?;
    let mut texts = List::new(alloc);
    texts.push(source(alloc, b"c.main", main)?)?;
    Ok(texts)
}
