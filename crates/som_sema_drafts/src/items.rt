//! The names of parents and of the release order that a text gives.

ghost use Rattle.som_order.specs.Names.{texts};
ghost use Rattle.som_sema_scope.specs.Words.{words};
ghost use Rattle.som_sema_drafts.specs.Items as spec;
ghost use Rattle.std.specs.Prelude.{◌≡◌, ◌++◌, IfOk, OnOk};

use som_ast::{Item, Word};
use som_model::NoMemory;
use som_sema_scope::add;
use std::alloc::Global;

// Adds the texts of words.
fn add_words<'a>(names: &mut Vec<&'a [u8]>, list: &'a [Word]) -> Result<(), NoMemory>
    ensures { OnOk result (texts names.new.items ≡ texts names.old.items ++ words list.now) }
{
    for word in list {
        add(names, word.text.as_slice())?;
    }
    Ok(())
}

/// The names of the parents, which are SOMObject alone where none is named.
pub fn parent_names(alloc: Global, parents: &[Word]) -> Result<Vec<&[u8]>, NoMemory>
    ensures { IfOk result (λ names. texts names.items ≡ spec.or_object parents.now) }
{
    let mut names = Vec::new(alloc);
    if parents.is_empty() {
        add(&mut names, b"SOMObject")?;
    } else {
        add_words(&mut names, parents)?;
    }
    Ok(names)
}

/// The names of all release orders, joined.
pub fn listed(alloc: Global, items: &[Item]) -> Result<Vec<&[u8]>, NoMemory>
    ensures { IfOk result (λ names. texts names.items ≡ spec.listed items.now) }
{
    let mut names = Vec::new(alloc);
    for item in items {
        if let Item::ReleaseOrder { names: order } = item {
            add_words(&mut names, order.as_slice())?;
        }
    }
    Ok(names)
}
