//! What the index of names keeps of one class: its ancestors, and its names with their tokens.

ghost use Rattle.som_names.specs.Index.{token_in};
ghost use Rattle.std.specs.Prelude.{◌≡◌, IfOk};

use som_model::{List, NoMemory, Text};
use som_tables::{ClassNo, MToken};
use std::alloc::Global;

/// What was added for a class.
#[derive(Drop)]
pub(crate) struct Named {
    pub(crate) ancestors: List<ClassNo>,
    pub(crate) names: List<Text>,
    pub(crate) tokens: List<MToken>,
}

/// Names that share the bytes of these.
pub(crate) fn copy_names(alloc: Global, names: &[Text]) -> Result<List<Text>, NoMemory>
    ensures { IfOk result (λ copies. copies ≡ names.now) }
{
    let mut copies = List::new(alloc);
    for name in names {
        copies.push(name.copy(alloc)?)?;
    }
    Ok(copies)
}

/// The token at the place of a name.
pub(crate) fn token_of(names: &[Text], tokens: &[MToken], name: &Text) -> Option<MToken>
    ensures { result ≡ token_in names.now tokens.now name.now }
{
    for (place, other) in names.iter().enumerate() {
        if *other == *name {
            return tokens.get(place).copied();
        }
    }
    None
}
