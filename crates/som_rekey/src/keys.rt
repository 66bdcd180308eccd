//! Keys, types and references to methods under other modules.

ghost use Rattle.som_rekey_laws.specs.Rekeying.{rekey, rekey_method as new_method, rekey_type as new_type};
ghost use Rattle.std.specs.Prelude.{◌≡◌, IfOk, map};

use crate::NewModules;
use som_model::{Boxed, ClassKey, List, MethodRef, NoMemory, ValueType};
use std::alloc::Global;

/// The new key: of what is made of named classes, the key that is made of their new keys.
#[cycle(rekey_key)]
pub fn rekey_key<C: NewModules>(
    alloc: Global,
    change: &C,
    key: &ClassKey,
) -> Result<ClassKey, NoMemory>
    ensures { IfOk result (λ k. k ≡ rekey (C.change change.now) key.now) }
{
    match key {
        ClassKey::Named { module, name } => Ok(ClassKey::Named {
            module: change.module_of(*module, name),
            name: name.copy(alloc)?,
        }),
        ClassKey::Derived { parents } => Ok(ClassKey::Derived {
            parents: rekey_keys(alloc, change, parents)?,
        }),
        ClassKey::Proxy { of } => Ok(ClassKey::Proxy {
            of: Boxed::new(alloc, rekey_key(alloc, change, of.get())?)?,
        }),
    }
}

/// The new keys, in order.
#[cycle(rekey_key)]
pub fn rekey_keys<C: NewModules>(
    alloc: Global,
    change: &C,
    keys: &List<ClassKey>,
) -> Result<List<ClassKey>, NoMemory>
    ensures { IfOk result (λ copies. copies ≡ map (rekey (C.change change.now)) keys.now) }
{
    let mut copies = List::new(alloc);
    for key in keys.as_slice() {
        copies.push(rekey_key(alloc, change, key)?)?;
    }
    Ok(copies)
}

/// The type under new keys.
pub fn rekey_type<C: NewModules>(
    alloc: Global,
    change: &C,
    kind: &ValueType,
) -> Result<ValueType, NoMemory>
    ensures { IfOk result (λ k. k ≡ new_type (C.change change.now) kind.now) }
{
    match kind {
        ValueType::Void => Ok(ValueType::Void),
        ValueType::Long => Ok(ValueType::Long),
        ValueType::Boolean => Ok(ValueType::Boolean),
        ValueType::Str => Ok(ValueType::Str),
        ValueType::Class(key) => Ok(ValueType::Class(rekey_key(alloc, change, key)?)),
    }
}

/// The method of the class under its new key.
pub fn rekey_method<C: NewModules>(
    alloc: Global,
    change: &C,
    method: &MethodRef,
) -> Result<MethodRef, NoMemory>
    ensures { IfOk result (λ m. m ≡ new_method (C.change change.now) method.now) }
{
    Ok(MethodRef {
        name: method.name.copy(alloc)?,
        class: rekey_key(alloc, change, &method.class)?,
    })
}
