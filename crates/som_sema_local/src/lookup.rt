//! The table of an interface's methods that are called by name.

ghost use Rattle.som_order.specs.Names.{texts};
ghost use Rattle.som_sema_scope.specs.Words.{once};
ghost use Rattle.som_sema_drafts.specs.Items.{given_by, is_by_name, with_modifier};
ghost use Rattle.std.specs.Prelude.{◌≡◌, map, IfOk};

use indexmap::IndexSet;
use som_ast::Modifier;
use som_model::NoMemory;
use som_sema_drafts::Mark;
use som_sema_scope::{add, table_of};
use std::alloc::Global;

/// A table of the methods that are called by name.
pub fn by_name<'a>(alloc: Global, marks: &[Mark<'a>]) -> Result<IndexSet<&'a [u8]>, NoMemory>
    ensures { IfOk result (λ known. texts known.keys ≡ once (with_modifier is_by_name (map given_by marks.now))) }
{
    let names = with_name_lookup(alloc, marks)?;
    table_of(alloc, &names)
}

fn with_name_lookup<'a>(alloc: Global, marks: &[Mark<'a>]) -> Result<Vec<&'a [u8]>, NoMemory>
    ensures { IfOk result (λ names. texts names.items ≡ with_modifier is_by_name (map given_by marks.now)) }
{
    let mut names = Vec::new(alloc);
    for mark in marks {
        if let Modifier::NameLookup = mark.modifier {
            add(&mut names, mark.method)?;
        }
    }
    Ok(names)
}
