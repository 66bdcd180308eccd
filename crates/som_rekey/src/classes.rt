//! Faces and declarations of classes under other modules.

ghost use Rattle.som_rekey_laws.specs.Rekeying.{rekey, rekey_body as new_body, rekey_decl as new_decl, rekey_entry as new_entry, rekey_face as new_face, rekey_override as new_override, rekey_select as new_select, rekey_sig as new_sig, rekey_type as new_type, rekey_variable as new_variable};
ghost use Rattle.std.specs.Option.{option_map};
ghost use Rattle.std.specs.Prelude.{◌≡◌, IfOk, map};

use crate::NewModules;
use crate::keys::{rekey_key, rekey_keys, rekey_method, rekey_type};
use crate::syntax::rekey_block;
use som_model::{
    Body, ClassDecl, ClassFace, ClassKey, Entry, List, NoMemory, Override, Select, Sig, ValueType,
    Variable,
};
use std::alloc::Global;

// Types under new keys, in order.
fn rekey_types<C: NewModules>(
    alloc: Global,
    change: &C,
    types: &List<ValueType>,
) -> Result<List<ValueType>, NoMemory>
    ensures { IfOk result (λ copies. copies ≡ map (new_type (C.change change.now)) types.now) }
{
    let mut copies = List::new(alloc);
    for kind in types.as_slice() {
        copies.push(rekey_type(alloc, change, kind)?)?;
    }
    Ok(copies)
}

// A signature under new keys.
fn rekey_sig<C: NewModules>(alloc: Global, change: &C, sig: &Sig) -> Result<Sig, NoMemory>
    ensures { IfOk result (λ s. s ≡ new_sig (C.change change.now) sig.now) }
{
    let params = rekey_types(alloc, change, &sig.params)?;
    Ok(Sig {
        result: rekey_type(alloc, change, &sig.result)?,
        params,
    })
}

/// An entry under new keys.
pub fn rekey_entry<C: NewModules>(
    alloc: Global,
    change: &C,
    entry: &Entry,
) -> Result<Entry, NoMemory>
    ensures { IfOk result (λ e. e ≡ new_entry (C.change change.now) entry.now) }
{
    match entry {
        Entry::Introduced { name, sig, way } => Ok(Entry::Introduced {
            name: name.copy(alloc)?,
            sig: rekey_sig(alloc, change, sig)?,
            way: *way,
        }),
        Entry::Moved { name, to } => Ok(Entry::Moved {
            name: name.copy(alloc)?,
            to: rekey_key(alloc, change, to)?,
        }),
    }
}

// Entries under new keys, in order.
fn rekey_entries<C: NewModules>(
    alloc: Global,
    change: &C,
    entries: &List<Entry>,
) -> Result<List<Entry>, NoMemory>
    ensures { IfOk result (λ copies. copies ≡ map (new_entry (C.change change.now)) entries.now) }
{
    let mut copies = List::new(alloc);
    for entry in entries.as_slice() {
        copies.push(rekey_entry(alloc, change, entry)?)?;
    }
    Ok(copies)
}

/// The metaclass under new keys, if one is declared.
pub fn rekey_metaclass<C: NewModules>(
    alloc: Global,
    change: &C,
    metaclass: &Option<ClassKey>,
) -> Result<Option<ClassKey>, NoMemory>
    ensures { IfOk result (λ copy. copy ≡ option_map (rekey (C.change change.now)) metaclass.now) }
{
    match metaclass {
        None => Ok(None),
        Some(key) => Ok(Some(rekey_key(alloc, change, key)?)),
    }
}

/// The face of a class under new keys: its own name stays.
pub fn rekey_face<C: NewModules>(
    alloc: Global,
    change: &C,
    face: &ClassFace,
) -> Result<ClassFace, NoMemory>
    ensures { IfOk result (λ f. f ≡ new_face (C.change change.now) face.now) }
{
    let entries = rekey_entries(alloc, change, &face.entries)?;
    Ok(ClassFace {
        name: face.name.copy(alloc)?,
        major: face.major,
        minor: face.minor,
        parents: rekey_keys(alloc, change, &face.parents)?,
        metaclass: rekey_metaclass(alloc, change, &face.metaclass)?,
        entries,
    })
}

// A variable under new keys.
fn rekey_variable<C: NewModules>(
    alloc: Global,
    change: &C,
    variable: &Variable,
) -> Result<Variable, NoMemory>
    ensures { IfOk result (λ v. v ≡ new_variable (C.change change.now) variable.now) }
{
    Ok(Variable {
        name: variable.name.copy(alloc)?,
        kind: rekey_type(alloc, change, &variable.kind)?,
    })
}

// Variables under new keys, in order.
fn rekey_variables<C: NewModules>(
    alloc: Global,
    change: &C,
    variables: &List<Variable>,
) -> Result<List<Variable>, NoMemory>
    ensures { IfOk result (λ copies. copies ≡ map (new_variable (C.change change.now)) variables.now) }
{
    let mut copies = List::new(alloc);
    for variable in variables.as_slice() {
        copies.push(rekey_variable(alloc, change, variable)?)?;
    }
    Ok(copies)
}

// A body under new keys.
fn rekey_body<C: NewModules>(alloc: Global, change: &C, body: &Body) -> Result<Body, NoMemory>
    ensures { IfOk result (λ b. b ≡ new_body (C.change change.now) body.now) }
{
    match body {
        Body::User(block) => Ok(Body::User(rekey_block(alloc, change, block)?)),
        Body::Get(variable) => Ok(Body::Get(*variable)),
        Body::Set(variable) => Ok(Body::Set(*variable)),
    }
}

// Bodies under new keys, in order.
fn rekey_bodies<C: NewModules>(
    alloc: Global,
    change: &C,
    bodies: &List<Body>,
) -> Result<List<Body>, NoMemory>
    ensures { IfOk result (λ copies. copies ≡ map (new_body (C.change change.now)) bodies.now) }
{
    let mut copies = List::new(alloc);
    for body in bodies.as_slice() {
        copies.push(rekey_body(alloc, change, body)?)?;
    }
    Ok(copies)
}

// An override under new keys.
fn rekey_override<C: NewModules>(
    alloc: Global,
    change: &C,
    replaced: &Override,
) -> Result<Override, NoMemory>
    ensures { IfOk result (λ o. o ≡ new_override (C.change change.now) replaced.now) }
{
    Ok(Override {
        block: rekey_block(alloc, change, &replaced.block)?,
        method: rekey_method(alloc, change, &replaced.method)?,
    })
}

// Overrides under new keys, in order.
fn rekey_overrides<C: NewModules>(
    alloc: Global,
    change: &C,
    overrides: &List<Override>,
) -> Result<List<Override>, NoMemory>
    ensures { IfOk result (λ copies. copies ≡ map (new_override (C.change change.now)) overrides.now) }
{
    let mut copies = List::new(alloc);
    for replaced in overrides.as_slice() {
        copies.push(rekey_override(alloc, change, replaced)?)?;
    }
    Ok(copies)
}

// A select under new keys.
fn rekey_select<C: NewModules>(
    alloc: Global,
    change: &C,
    select: &Select,
) -> Result<Select, NoMemory>
    ensures { IfOk result (λ s. s ≡ new_select (C.change change.now) select.now) }
{
    Ok(Select {
        method: rekey_method(alloc, change, &select.method)?,
        parent: select.parent,
    })
}

// Selects under new keys, in order.
fn rekey_selects<C: NewModules>(
    alloc: Global,
    change: &C,
    selects: &List<Select>,
) -> Result<List<Select>, NoMemory>
    ensures { IfOk result (λ copies. copies ≡ map (new_select (C.change change.now)) selects.now) }
{
    let mut copies = List::new(alloc);
    for select in selects.as_slice() {
        copies.push(rekey_select(alloc, change, select)?)?;
    }
    Ok(copies)
}

/// A class under new keys: its own name stays.
pub fn rekey_class<C: NewModules>(
    alloc: Global,
    change: &C,
    class: &ClassDecl,
) -> Result<ClassDecl, NoMemory>
    ensures { IfOk result (λ d. d ≡ new_decl (C.change change.now) class.now) }
{
    let variables = rekey_variables(alloc, change, &class.variables)?;
    let bodies = rekey_bodies(alloc, change, &class.bodies)?;
    let overrides = rekey_overrides(alloc, change, &class.overrides)?;
    let selects = rekey_selects(alloc, change, &class.selects)?;
    Ok(ClassDecl {
        face: rekey_face(alloc, change, &class.face)?,
        variables,
        bodies,
        overrides,
        selects,
    })
}
