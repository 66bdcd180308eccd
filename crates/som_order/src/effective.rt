//! Makes a class's release order: the names that it lists, then those that it introduces and doesn't list.

ghost use Rattle.som_model.specs.EffectiveOrder as orders;
ghost use Rattle.som_model.specs.Lists.{among, without};
ghost use Rattle.som_order.specs.Names.{texts};
ghost use Rattle.std.specs.Prelude.{◌≡◌, ◌++◌, List as Seq, ℕ, IfOk, OnOk};

use crate::names::{find_name, note_name};
use indexmap::IndexSet;
use som_model::{List, NoMemory, Text};
use std::alloc::Global;

/// The listed names, and then the introduced names that the list misses, in the order of declaration.
pub fn effective_order(
    alloc: Global,
    listed: &List<Text>,
    introduced: &List<Text>,
) -> Result<List<Text>, NoMemory>
    ensures { IfOk result (λ names. names ≡ orders.effective_order listed.now introduced.now) }
{
    let mut order = copy_of(alloc, listed)?;
    let known = names_of(alloc, listed)?;
    add_missing(alloc, &mut order, &known, introduced)?;
    Ok(order)
}

fn copy_of(alloc: Global, names: &List<Text>) -> Result<List<Text>, NoMemory>
    ensures { IfOk result (λ copies. copies ≡ names.now) }
{
    let mut copies = List::new(alloc);
    for name in names.as_slice() {
        copies.push(name.copy(alloc)?)?;
    }
    Ok(copies)
}

// A table of the names.
#[tactic(auto, using(crate::proofs::Noted::noted))]
fn names_of(alloc: Global, names: &List<Text>) -> Result<IndexSet<&[u8]>, NoMemory>
    ensures { IfOk result (λ known. (name : Seq ℕ) → among name (texts known.keys) ≡ among name names.now) }
{
    let mut known = IndexSet::new(alloc);
    for name in names.as_slice() {
        let _is_new = note_name(&mut known, name.as_slice())?;
    }
    Ok(known)
}

// Adds the names that aren't known.
fn add_missing(
    alloc: Global,
    order: &mut List<Text>,
    known: &IndexSet<&[u8]>,
    names: &List<Text>,
) -> Result<(), NoMemory>
    ensures { OnOk result (order.new ≡
        order.old ++ without (λ name. among name (texts known.now.keys)) names.now) }
{
    for name in names.as_slice() {
        if find_name(known, name.as_slice()).is_none() {
            order.push(name.copy(alloc)?)?;
        }
    }
    Ok(())
}
