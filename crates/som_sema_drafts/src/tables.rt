//! Tables of the methods that a text overrides or selects.

ghost use Rattle.som_model.specs.Lists.{among, without};
ghost use Rattle.som_order.specs.Names.{texts};
ghost use Rattle.som_sema_scope.specs.Words.{once};
ghost use Rattle.som_sema_drafts.specs.Items.{given_by, is_override, is_select, with_modifier};
ghost use Rattle.std.specs.Prelude.{◌≡◌, map, IfOk};

use crate::given::Mark;
use indexmap::IndexSet;
use som_ast::Modifier;
use som_model::NoMemory;
use som_order::{find_name, note_name};
use som_sema_scope::{add, table_of};
use std::alloc::Global;

/// A table of the methods with `override`.
pub fn replaced<'a>(alloc: Global, marks: &[Mark<'a>]) -> Result<IndexSet<&'a [u8]>, NoMemory>
    ensures { IfOk result (λ known. texts known.keys ≡ once (with_modifier is_override (map given_by marks.now))) }
{
    let names = with_override(alloc, marks)?;
    table_of(alloc, &names)
}

/// A table of the methods with `select`.
pub fn selecting<'a>(alloc: Global, marks: &[Mark<'a>]) -> Result<IndexSet<&'a [u8]>, NoMemory>
    ensures { IfOk result (λ known. texts known.keys ≡ once (with_modifier is_select (map given_by marks.now))) }
{
    let names = with_select(alloc, marks)?;
    table_of(alloc, &names)
}

/// The methods that are overridden: those with `override` and without `select`, each at its first place.
pub fn overridden<'a>(alloc: Global, marks: &[Mark<'a>]) -> Result<Vec<&'a [u8]>, NoMemory>
    ensures { IfOk result (λ names. texts names.items ≡ without (λ name. among name (once (with_modifier is_select (map given_by marks.now))))
        (once (with_modifier is_override (map given_by marks.now)))) }
{
    let names = with_override(alloc, marks)?;
    let replaced = first_places(alloc, &names)?;
    let selecting = selecting(alloc, marks)?;
    not_among(alloc, &replaced, &selecting)
}

fn with_override<'a>(alloc: Global, marks: &[Mark<'a>]) -> Result<Vec<&'a [u8]>, NoMemory>
    ensures { IfOk result (λ names. texts names.items ≡ with_modifier is_override (map given_by marks.now)) }
{
    let mut names = Vec::new(alloc);
    for mark in marks {
        if let Modifier::Override = mark.modifier {
            add(&mut names, mark.method)?;
        }
    }
    Ok(names)
}

fn with_select<'a>(alloc: Global, marks: &[Mark<'a>]) -> Result<Vec<&'a [u8]>, NoMemory>
    ensures { IfOk result (λ names. texts names.items ≡ with_modifier is_select (map given_by marks.now)) }
{
    let mut names = Vec::new(alloc);
    for mark in marks {
        if let Modifier::Select { .. } = mark.modifier {
            add(&mut names, mark.method)?;
        }
    }
    Ok(names)
}

// Those of the names that the table doesn't have.
fn not_among<'a>(
    alloc: Global,
    names: &[&'a [u8]],
    known: &IndexSet<&[u8]>,
) -> Result<Vec<&'a [u8]>, NoMemory>
    ensures { IfOk result (λ kept. texts kept.items ≡ without (λ name. among name (texts known.now.keys)) (texts names.now)) }
{
    let mut kept = Vec::new(alloc);
    for name in names {
        if find_name(known, *name).is_none() {
            add(&mut kept, *name)?;
        }
    }
    Ok(kept)
}

// The names, each at its first place.
fn first_places<'a>(alloc: Global, names: &[&'a [u8]]) -> Result<Vec<&'a [u8]>, NoMemory>
    ensures { IfOk result (λ first. texts first.items ≡ once (texts names.now)) }
{
    let mut known = IndexSet::new(alloc);
    let mut first = Vec::new(alloc);
    for name in names {
        if note_name(&mut known, *name)? {
            add(&mut first, *name)?;
        }
    }
    Ok(first)
}
