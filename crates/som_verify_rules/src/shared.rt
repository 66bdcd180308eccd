//! Filters the names that more than one class introduces, since no other name can break S8.

ghost use Rattle.som_model.specs.Class.{introduced};
ghost use Rattle.som_model.specs.Kernel.{kernel_interface};
ghost use Rattle.som_model.specs.Lists.{Mem};
ghost use Rattle.som_order.specs.Names.{texts};
ghost use Rattle.som_verify_classes.specs.Modules.{classes_of};
ghost use Rattle.som_verify_classes.specs.Places.{with_kernel};
ghost use Rattle.som_verify_rules.specs.Shared.{AreSharedRows, Covers, all_introduced as every_name, kept, row_names};
ghost use Rattle.std.specs.Prelude.{◌≡◌, ◌<◌, ◌++◌, ◌∷◌, [], List as Seq, ℕ, length, flat_map, IfOk, OnOk};

use crate::introduced::add_introduced;
use indexmap::IndexSet;
use som_model::{ClassFace, Entry, List, NoMemory};
use som_order::{find_name, note_name};
use som_verify_classes::{Declared, KERNEL_CLASSES, entries_at};
use som_verify_parents::add;
use std::alloc::Global;

/// Of each class, the kernel's first, the names that it introduces and that are introduced twice among all classes:
/// no other name can break S8.
pub fn shared_rows<'a>(
    alloc: Global,
    kernel: &'a [ClassFace],
    classes: &[Declared<'a>],
) -> Result<Vec<List<&'a [u8]>>, NoMemory>
    requires { kernel.now ≡ kernel_interface.classes }
    ensures { IfOk result (λ rows. AreSharedRows (with_kernel (classes_of classes.now)) rows.items) }
{
    let names = all_introduced(alloc, kernel, classes)?;
    let shared = shared_names(alloc, &names)?;
    rows_of_shared(alloc, kernel, classes, &shared)
}

// The names that all classes introduce.
fn all_introduced<'a>(
    alloc: Global,
    kernel: &'a [ClassFace],
    classes: &[Declared<'a>],
) -> Result<Vec<&'a [u8]>, NoMemory>
    requires { kernel.now ≡ kernel_interface.classes }
    ensures { IfOk result (λ names. texts names.items ≡ every_name (with_kernel (classes_of classes.now))) }
{
    let mut names = Vec::new(alloc);
    for place in 0..classes.len() + KERNEL_CLASSES {
        add_introduced(&mut names, entries_at(kernel, classes, place))?;
    }
    Ok(names)
}

// The names that stand twice.
fn shared_names<'a>(alloc: Global, names: &[&'a [u8]]) -> Result<IndexSet<&'a [u8]>, NoMemory>
    ensures { IfOk result (λ shared. (seen : Seq (Seq ℕ)) × Covers (texts names.now) seen (texts shared.keys)) }
{
    let mut seen = IndexSet::new(alloc);
    let mut shared = IndexSet::new(alloc);
    note_twice(&mut seen, &mut shared, names)?;
    Ok(shared)
}

fn note_twice<'a>(
    seen: &mut IndexSet<&'a [u8]>,
    shared: &mut IndexSet<&'a [u8]>,
    names: &[&'a [u8]],
) -> Result<(), NoMemory>
    requires seen { texts seen.old.keys ≡ [] }
    requires shared { texts shared.old.keys ≡ [] }
    ensures { OnOk result (Covers (texts names.now) (texts seen.new.keys) (texts shared.new.keys)) }
{
    for name in names {
        note_again(seen, shared, *name)?;
    }
    Ok(())
}

// A name that was seen before is shared.
fn note_again<'a>(
    seen: &mut IndexSet<&'a [u8]>,
    shared: &mut IndexSet<&'a [u8]>,
    name: &'a [u8],
) -> Result<(), NoMemory>
    ensures { OnOk result ((done : Seq (Seq ℕ)) → Covers done (texts seen.old.keys) (texts shared.old.keys) →
        Covers (done ++ name.now ∷ []) (texts seen.new.keys) (texts shared.new.keys)) }
{
    if !note_name(seen, name)? {
        let _again = note_name(shared, name)?;
    }
    Ok(())
}

// Of each class the names that it introduces among these.
fn rows_of_shared<'a>(
    alloc: Global,
    kernel: &'a [ClassFace],
    classes: &[Declared<'a>],
    shared: &IndexSet<&[u8]>,
) -> Result<Vec<List<&'a [u8]>>, NoMemory>
    requires kernel { kernel.now ≡ kernel_interface.classes }
    requires shared { (seen : Seq (Seq ℕ)) × Covers (every_name (with_kernel (classes_of classes.now))) seen (texts shared.now.keys) }
    ensures { IfOk result (λ rows. AreSharedRows (with_kernel (classes_of classes.now)) rows.items) }
{
    let mut rows = Vec::new(alloc);
    for place in 0..classes.len() + KERNEL_CLASSES {
        rows.push(shared_of(alloc, entries_at(kernel, classes, place), shared)?)?;
    }
    Ok(rows)
}

#[tactic(auto, using(crate::proofs::SharedRows::kept_one))]
fn shared_of<'a>(
    alloc: Global,
    entries: &'a [Entry],
    shared: &IndexSet<&[u8]>,
) -> Result<List<&'a [u8]>, NoMemory>
    ensures { IfOk result (λ row. texts row ≡ kept (texts shared.now.keys) (introduced entries.now)) }
{
    if shared.is_empty() {
        return Ok(List::new(alloc));
    }
    let mut row = List::new(alloc);
    for entry in entries {
        if let Entry::Introduced { name, .. } = entry {
            add_shared(&mut row, name.as_slice(), shared)?;
        }
    }
    Ok(row)
}

// Adds a name if it is shared.
fn add_shared<'a>(
    row: &mut List<&'a [u8]>,
    name: &'a [u8],
    shared: &IndexSet<&[u8]>,
) -> Result<(), NoMemory>
    ensures { OnOk result (texts row.new ≡ texts row.old ++ kept (texts shared.now.keys) (name.now ∷ [])) }
{
    if find_name(shared, name).is_some() {
        row.push(name)?;
    }
    Ok(())
}

/// Adds the names of these rows.
pub fn add_rows<'a>(
    names: &mut Vec<&'a [u8]>,
    rows: &[List<&'a [u8]>],
    list: &[usize],
) -> Result<(), NoMemory>
    requires { (a : ℕ) → Mem a list.now → a < length rows.now }
    ensures { OnOk result (texts names.new.items ≡ texts names.old.items ++ flat_map (row_names rows.now) list.now) }
{
    for place in list {
        add_names(names, row_at(rows, *place))?;
    }
    Ok(())
}

fn row_at<'r, 'a>(rows: &'r [List<&'a [u8]>], place: usize) -> &'r [&'a [u8]]
    requires { place < length rows.now }
    ensures { texts result.now ≡ row_names rows.now place }
{
    rows[place].as_slice()
}

fn add_names<'a>(names: &mut Vec<&'a [u8]>, row: &[&'a [u8]]) -> Result<(), NoMemory>
    ensures { OnOk result (texts names.new.items ≡ texts names.old.items ++ texts row.now) }
{
    for name in row {
        add(names, *name)?;
    }
    Ok(())
}
