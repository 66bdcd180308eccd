//! The entries that an interface introduces: its operations, and the accessors of its attributes.

ghost use Rattle.som_model.specs.declared.key.ValueType.TheVariants as types;
ghost use Rattle.som_order.specs.Names.{texts};
ghost use Rattle.som_ast.specs.declared.words.Word.{Word as Named};
ghost use Rattle.som_sema_scope.specs.ClassNames as names_of_classes;
ghost use Rattle.som_sema_scope.specs.ClassNames.{module_in_scope};
ghost use Rattle.som_sema_drafts.specs.Drafts as drafting;
ghost use Rattle.som_sema_drafts.specs.Drafts.{accessors, export_entries, getter, method, param_types, setter};
ghost use Rattle.som_sema_drafts.specs.Items as spec;
ghost use Rattle.std.specs.Prelude.{◌≡◌, ◌++◌, ◌∷◌, [], flat_map, IfOk, OnOk};

use indexmap::IndexSet;
use som_ast::{Export, IdlInterface, Param, TypeName, Word};
use som_model::{Entry, List, NoMemory, Sig, Text, ValueType, Way};
use som_order::find_name;
use som_sema_drafts::prefixed;
use som_sema_scope::{Scope, result_of, type_of};
use std::alloc::Global;

/// The methods that an interface introduces, in the order of declaration.
pub fn introduced(
    alloc: Global,
    scope: &Scope,
    by_name: &IndexSet<&[u8]>,
    text: &IdlInterface,
) -> Result<List<Entry>, NoMemory>
    requires { texts by_name.now.keys ≡ spec.by_name text.now.items }
    ensures { IfOk result (λ entries. entries ≡ drafting.introduces (module_in_scope scope.now) text.now) }
{
    let mut entries = List::new(alloc);
    add_exports(alloc, &mut entries, scope, by_name, text.before.as_slice())?;
    add_exports(alloc, &mut entries, scope, by_name, text.after.as_slice())?;
    Ok(entries)
}

fn add_exports(
    alloc: Global,
    entries: &mut List<Entry>,
    scope: &Scope,
    by_name: &IndexSet<&[u8]>,
    exports: &[Export],
) -> Result<(), NoMemory>
    ensures { OnOk result (entries.new ≡ entries.old ++
        flat_map (export_entries (module_in_scope scope.now) (texts by_name.now.keys)) exports.now) }
{
    for export in exports {
        add_export(alloc, entries, scope, by_name, export)?;
    }
    Ok(())
}

fn add_export(
    alloc: Global,
    entries: &mut List<Entry>,
    scope: &Scope,
    by_name: &IndexSet<&[u8]>,
    export: &Export,
) -> Result<(), NoMemory>
    ensures { OnOk result (entries.new ≡ entries.old ++
        export_entries (module_in_scope scope.now) (texts by_name.now.keys) export.now) }
{
    match export {
        Export::Attribute {
            readonly,
            kind,
            names,
        } => {
            let kind = type_of(alloc, scope, kind)?;
            add_accessors(alloc, entries, by_name, *readonly, &kind, names.as_slice())
        }
        Export::Operation {
            result,
            name,
            params,
        } => {
            let name = name.text.copy(alloc)?;
            let sig = operation_sig(alloc, scope, result, params.as_slice())?;
            entries.push(introduce(by_name, name, sig))
        }
    }
}

// The type of the result is made last, so that no other step has to drop it.
fn operation_sig(
    alloc: Global,
    scope: &Scope,
    outcome: &Option<TypeName>,
    params: &[Param],
) -> Result<Sig, NoMemory>
    ensures { IfOk result (λ sig. sig ≡ record {
      result = names_of_classes.result_of (module_in_scope scope.now) outcome.now;
      params = param_types (module_in_scope scope.now) params.now;
    }) }
{
    let params = kinds(alloc, scope, params)?;
    let outcome = result_of(alloc, scope, outcome)?;
    Ok(Sig {
        result: outcome,
        params,
    })
}

// The methods that read and set the attributes of these names.
fn add_accessors(
    alloc: Global,
    entries: &mut List<Entry>,
    by_name: &IndexSet<&[u8]>,
    readonly: bool,
    kind: &ValueType,
    names: &[Word],
) -> Result<(), NoMemory>
    ensures { OnOk result (entries.new ≡ entries.old ++
        flat_map (λ (w : Named). accessors (texts by_name.now.keys) readonly kind.now w.text) names.now) }
{
    for word in names {
        add_accessor_pair(
            alloc,
            entries,
            by_name,
            readonly,
            kind,
            word.text.as_slice(),
        )?;
    }
    Ok(())
}

fn add_accessor_pair(
    alloc: Global,
    entries: &mut List<Entry>,
    by_name: &IndexSet<&[u8]>,
    readonly: bool,
    kind: &ValueType,
    name: &[u8],
) -> Result<(), NoMemory>
    ensures { OnOk result (entries.new ≡ entries.old ++ accessors (texts by_name.now.keys) readonly kind.now name.now) }
{
    entries.push(reader(alloc, by_name, kind, name)?)?;
    if readonly {
        return Ok(());
    }
    entries.push(writer(alloc, by_name, kind, name)?)
}

fn reader(
    alloc: Global,
    by_name: &IndexSet<&[u8]>,
    kind: &ValueType,
    name: &[u8],
) -> Result<Entry, NoMemory>
    ensures { IfOk result (λ e. e ≡ method (texts by_name.now.keys) (getter name.now) kind.now []) }
{
    let name = prefixed(alloc, b"_get_", name)?;
    let sig = Sig {
        result: kind.copy(alloc)?,
        params: List::new(alloc),
    };
    Ok(introduce(by_name, name, sig))
}

fn writer(
    alloc: Global,
    by_name: &IndexSet<&[u8]>,
    kind: &ValueType,
    name: &[u8],
) -> Result<Entry, NoMemory>
    ensures { IfOk result (λ e. e ≡ method (texts by_name.now.keys) (setter name.now) types.Void (kind.now ∷ [])) }
{
    let name = prefixed(alloc, b"_set_", name)?;
    let mut params = List::new(alloc);
    params.push(kind.copy(alloc)?)?;
    let sig = Sig {
        result: ValueType::Void,
        params,
    };
    Ok(introduce(by_name, name, sig))
}

fn introduce(by_name: &IndexSet<&[u8]>, name: Text, sig: Sig) -> Entry
    ensures { result ≡ method (texts by_name.now.keys) name sig.result sig.params }
{
    let way = way_of(by_name, name.as_slice());
    Entry::Introduced { name, sig, way }
}

fn way_of(by_name: &IndexSet<&[u8]>, name: &[u8]) -> Way
    ensures { result ≡ drafting.way_of (texts by_name.now.keys) name.now }
{
    if find_name(by_name, name).is_some() {
        Way::Lookup
    } else {
        Way::Offset
    }
}

fn kinds(alloc: Global, scope: &Scope, params: &[Param]) -> Result<List<ValueType>, NoMemory>
    ensures { IfOk result (λ kinds. kinds ≡ param_types (module_in_scope scope.now) params.now) }
{
    let mut kinds = List::new(alloc);
    for param in params {
        kinds.push(type_of(alloc, scope, &param.kind)?)?;
    }
    Ok(kinds)
}
