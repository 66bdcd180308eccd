//! The instance variables of an interface: its attributes, and those of its implementation section.

ghost use Rattle.som_sema_scope.specs.ClassNames as names_of_classes;
ghost use Rattle.som_sema_scope.specs.ClassNames.{module_in_scope};
ghost use Rattle.som_sema_drafts.specs.Drafts as drafting;
ghost use Rattle.som_sema_drafts.specs.Drafts.{export_variables, item_variables, variables_of};
ghost use Rattle.std.specs.Prelude.{◌≡◌, ◌++◌, flat_map, IfOk, OnOk};

use som_ast::{Export, IdlInterface, Item, TypeName, Word};
use som_model::{List, NoMemory, Variable};
use som_sema_scope::{Scope, type_of};
use std::alloc::Global;

/// The variables of an interface, those of attributes among them, in the order of the text.
pub fn variables(
    alloc: Global,
    scope: &Scope,
    text: &IdlInterface,
) -> Result<List<Variable>, NoMemory>
    ensures { IfOk result (λ all. all ≡ drafting.variables (module_in_scope scope.now) text.now) }
{
    let mut all = List::new(alloc);
    add_attributes(alloc, &mut all, scope, text.before.as_slice())?;
    add_declared(alloc, &mut all, scope, text.items.as_slice())?;
    add_attributes(alloc, &mut all, scope, text.after.as_slice())?;
    Ok(all)
}

fn add_attributes(
    alloc: Global,
    all: &mut List<Variable>,
    scope: &Scope,
    exports: &[Export],
) -> Result<(), NoMemory>
    ensures { OnOk result (all.new ≡ all.old ++ flat_map (export_variables (module_in_scope scope.now)) exports.now) }
{
    for export in exports {
        if let Export::Attribute { kind, names, .. } = export {
            add_each(alloc, all, scope, kind, names.as_slice())?;
        }
    }
    Ok(())
}

fn add_declared(
    alloc: Global,
    all: &mut List<Variable>,
    scope: &Scope,
    items: &[Item],
) -> Result<(), NoMemory>
    ensures { OnOk result (all.new ≡ all.old ++ flat_map (item_variables (module_in_scope scope.now)) items.now) }
{
    for item in items {
        if let Item::Variables { kind, names } = item {
            add_each(alloc, all, scope, kind, names.as_slice())?;
        }
    }
    Ok(())
}

fn add_each(
    alloc: Global,
    all: &mut List<Variable>,
    scope: &Scope,
    kind: &TypeName,
    names: &[Word],
) -> Result<(), NoMemory>
    ensures { OnOk result (all.new ≡ all.old ++ variables_of (names_of_classes.type_of (module_in_scope scope.now) kind.now) names.now) }
{
    for word in names {
        all.push(Variable {
            name: word.text.copy(alloc)?,
            kind: type_of(alloc, scope, kind)?,
        })?;
    }
    Ok(())
}
