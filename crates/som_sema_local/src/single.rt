//! The items of an implementation section that may stand once: metaclass, versions, release order.

ghost use Rattle.som_order.specs.Names.{texts};
ghost use Rattle.som_sema_drafts.specs.Items as spec;
ghost use Rattle.std.specs.Prelude.{◌≡◌, ◌++◌, IfOk, OnOk};

use som_ast::{IdlInterface, Item};
use som_model::NoMemory;
use som_sema_drafts::parent_names;
use som_sema_scope::add;
use std::alloc::Global;

/// The names of the parents, and then those of the metaclass items.
pub fn base_names(alloc: Global, interface: &IdlInterface) -> Result<Vec<&[u8]>, NoMemory>
    ensures { IfOk result (λ names. texts names.items ≡ spec.or_object interface.now.parents ++ spec.metaclass_names interface.now.items) }
{
    let mut names = parent_names(alloc, interface.parents.as_slice())?;
    add_metaclasses(&mut names, interface.items.as_slice())?;
    Ok(names)
}

/// The names of the metaclass items.
pub fn metaclass_names(alloc: Global, items: &[Item]) -> Result<Vec<&[u8]>, NoMemory>
    ensures { IfOk result (λ names. texts names.items ≡ spec.metaclass_names items.now) }
{
    let mut names = Vec::new(alloc);
    add_metaclasses(&mut names, items)?;
    Ok(names)
}

// Adds the names of the metaclass items.
fn add_metaclasses<'a>(names: &mut Vec<&'a [u8]>, items: &'a [Item]) -> Result<(), NoMemory>
    ensures { OnOk result (texts names.new.items ≡ texts names.old.items ++ spec.metaclass_names items.now) }
{
    for item in items {
        if let Item::Metaclass { name } = item {
            add(names, name.text.as_slice())?;
        }
    }
    Ok(())
}

/// The words of the items that may stand once.
pub fn item_words(alloc: Global, items: &[Item]) -> Result<Vec<&'static [u8]>, NoMemory>
    ensures { IfOk result (λ names. texts names.items ≡ spec.item_words items.now) }
{
    let mut names = Vec::new(alloc);
    for item in items {
        add_word(&mut names, item)?;
    }
    Ok(names)
}

fn add_word(names: &mut Vec<&'static [u8]>, item: &Item) -> Result<(), NoMemory>
    ensures { OnOk result (texts names.new.items ≡ texts names.old.items ++ spec.word_in item.now) }
{
    match item {
        Item::ReleaseOrder { .. } => add(names, b"releaseorder"),
        Item::Metaclass { .. } => add(names, b"metaclass"),
        Item::Major { .. } => add(names, b"majorversion"),
        Item::Minor { .. } => add(names, b"minorversion"),
        Item::Method { .. } => Ok(()),
        Item::Variables { .. } => Ok(()),
    }
}

/// The first major version that is given, and 0 where none is.
pub fn major(items: &[Item]) -> u32
    ensures { result ≡ spec.number_of spec.major_in items.now }
{
    for item in items {
        if let Item::Major { number } = item {
            return *number;
        }
    }
    0
}

/// The first minor version that is given, and 0 where none is.
pub fn minor(items: &[Item]) -> u32
    ensures { result ≡ spec.number_of spec.minor_in items.now }
{
    for item in items {
        if let Item::Minor { number } = item {
            return *number;
        }
    }
    0
}
