//! The methods that an interface declares by operations.

ghost use Rattle.som_elab_methods.specs.Bodies.{operation_name, operations};
ghost use Rattle.som_elab_methods.specs.Tables.{HaveNames};
ghost use Rattle.som_model.specs.Lists.{among};
ghost use Rattle.som_order.specs.Names.{texts};
ghost use Rattle.std.specs.Prelude.{◌≡◌, ◌++◌, ◌∷◌, [], flat_map, IfOk, OnOk};

use indexmap::IndexSet;
use som_ast::{Export, IdlInterface};
use som_model::NoMemory;
use som_order::{find_name, note_name};
use std::alloc::Global;

/// The names of the methods that an interface declares by operations.
pub fn operation_names<'a>(
    alloc: Global,
    text: &'a IdlInterface,
) -> Result<IndexSet<&'a [u8]>, NoMemory>
    ensures { IfOk result (λ names. HaveNames (operations text.now) (texts names.keys)) }
{
    let mut names = IndexSet::new(alloc);
    add_operations(&mut names, text.before.as_slice())?;
    add_operations(&mut names, text.after.as_slice())?;
    Ok(names)
}

fn add_operations<'a>(names: &mut IndexSet<&'a [u8]>, exports: &'a [Export]) -> Result<(), NoMemory>
    ensures { OnOk result (HaveNames (texts names.old.keys ++ flat_map operation_name exports.now) (texts names.new.keys)) }
{
    for export in exports {
        add_operation(names, export)?;
    }
    Ok(())
}

fn add_operation<'a>(names: &mut IndexSet<&'a [u8]>, export: &'a Export) -> Result<(), NoMemory>
    ensures { OnOk result (HaveNames (texts names.old.keys ++ operation_name export.now) (texts names.new.keys)) }
{
    match export {
        Export::Operation { name, .. } => add_name(names, name.text.as_slice()),
        Export::Attribute { .. } => Ok(()),
    }
}

/// A name more, which the table may have.
#[tactic(auto, using(crate::proofs::Tabled::noted_last))]
pub fn add_name<'a>(names: &mut IndexSet<&'a [u8]>, name: &'a [u8]) -> Result<(), NoMemory>
    ensures { OnOk result (HaveNames (texts names.old.keys ++ name.now ∷ []) (texts names.new.keys)) }
{
    let _is_new = note_name(names, name)?;
    Ok(())
}

/// Whether an interface declares a method by an operation, by the names of these. The interface is given for the contract
/// alone.
pub fn is_operation(_text: &IdlInterface, names: &IndexSet<&[u8]>, name: &[u8]) -> bool
    requires { HaveNames (operations _text.now) (texts names.now.keys) }
    ensures { result ≡ among name.now (operations _text.now) }
{
    find_name(names, name).is_some()
}
