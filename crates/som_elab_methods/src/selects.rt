//! The parents that an interface selects for its methods.

ghost use Rattle.som_elab_methods.specs.Limits.{chosen_at};
ghost use Rattle.som_sema_drafts.specs.Items.{chosen, chosen_in};
ghost use Rattle.std.specs.Prelude.{◌≡◌, ◌+◌, flat_map, length, IfOk, OnOk};

use som_ast::{Item, Modifier, Word};
use som_model::NoMemory;
use std::alloc::Global;

/// The parents that an interface selects for methods, one for each of its selects.
pub fn selected(alloc: Global, items: &[Item]) -> Result<Vec<&Word>, NoMemory>
    ensures { IfOk result (λ all. length all.items ≡ length (chosen items.now)) }
{
    let mut all = Vec::new(alloc);
    for item in items {
        add_item(&mut all, item)?;
    }
    Ok(all)
}

#[tactic(auto, using(crate::proofs::Selecting::method_length))]
fn add_item<'a>(all: &mut Vec<&'a Word>, item: &'a Item) -> Result<(), NoMemory>
    ensures { OnOk result (length all.new.items ≡ length all.old.items + length (chosen_at item.now)) }
{
    match item {
        Item::Method { name, modifiers } => {
            add_selects(all, name.text.as_slice(), modifiers.as_slice())
        }
        Item::ReleaseOrder { .. } => Ok(()),
        Item::Metaclass { .. } => Ok(()),
        Item::Major { .. } => Ok(()),
        Item::Minor { .. } => Ok(()),
        Item::Variables { .. } => Ok(()),
    }
}

// The name of the method is given for the contract alone.
fn add_selects<'a>(
    all: &mut Vec<&'a Word>,
    _name: &[u8],
    modifiers: &'a [Modifier],
) -> Result<(), NoMemory>
    ensures { OnOk result (length all.new.items ≡ length all.old.items + length (flat_map (chosen_in _name.now) modifiers.now)) }
{
    for modifier in modifiers {
        if let Modifier::Select { parent } = modifier {
            all.push(parent)?;
        }
    }
    Ok(())
}
