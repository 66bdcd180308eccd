//! Copies of class keys, types and references to methods with all that they hold, as they are or behind a pointer.

ghost use Rattle.std.specs.Prelude.{◌≡◌, IfOk};

use crate::{Boxed, ClassKey, List, MethodRef, NoMemory, Text, ValueType};
use std::alloc::Global;

impl ClassKey {
    #[cycle(copy_key)]
    pub fn copy(&self, alloc: Global) -> Result<ClassKey, NoMemory>
        ensures { IfOk result (λ key. key ≡ self.now) }
    {
        match self {
            ClassKey::Named { module, name } => Ok(ClassKey::Named {
                module: *module,
                name: name.copy(alloc)?,
            }),
            ClassKey::Derived { parents } => Ok(ClassKey::Derived {
                parents: copy_keys(alloc, parents)?,
            }),
            ClassKey::Proxy { of } => Ok(ClassKey::Proxy {
                of: Boxed::new(alloc, of.get().copy(alloc)?)?,
            }),
        }
    }
}

#[cycle(copy_key)]
pub(crate) fn copy_keys(alloc: Global, keys: &List<ClassKey>) -> Result<List<ClassKey>, NoMemory>
    ensures { IfOk result (λ copies. copies ≡ keys.now) }
{
    let mut copies = List::new(alloc);
    for key in keys.as_slice() {
        copies.push(key.copy(alloc)?)?;
    }
    Ok(copies)
}

impl ValueType {
    pub fn copy(&self, alloc: Global) -> Result<ValueType, NoMemory>
        ensures { IfOk result (λ kind. kind ≡ self.now) }
    {
        match self {
            ValueType::Void => Ok(ValueType::Void),
            ValueType::Long => Ok(ValueType::Long),
            ValueType::Boolean => Ok(ValueType::Boolean),
            ValueType::Str => Ok(ValueType::Str),
            ValueType::Class(key) => Ok(ValueType::Class(key.copy(alloc)?)),
        }
    }
}

impl MethodRef {
    pub fn copy(&self, alloc: Global) -> Result<MethodRef, NoMemory>
        ensures { IfOk result (λ method. method ≡ self.now) }
    {
        Ok(MethodRef {
            name: self.name.copy(alloc)?,
            class: self.class.copy(alloc)?,
        })
    }
}

impl ClassKey {
    pub fn copy_boxed(&self, alloc: Global) -> Result<Boxed<ClassKey>, NoMemory>
        ensures { IfOk result (λ key. key ≡ self.now) }
    {
        Boxed::new(alloc, self.copy(alloc)?)
    }
}

impl ValueType {
    pub fn copy_boxed(&self, alloc: Global) -> Result<Boxed<ValueType>, NoMemory>
        ensures { IfOk result (λ kind. kind ≡ self.now) }
    {
        Boxed::new(alloc, self.copy(alloc)?)
    }
}

impl MethodRef {
    pub fn copy_boxed(&self, alloc: Global) -> Result<Boxed<MethodRef>, NoMemory>
        ensures { IfOk result (λ method. method ≡ self.now) }
    {
        Boxed::new(alloc, self.copy(alloc)?)
    }
}

impl Text {
    pub fn copy_boxed(&self, alloc: Global) -> Result<Boxed<Text>, NoMemory>
        ensures { IfOk result (λ text. text ≡ self.now) }
    {
        Boxed::new(alloc, self.copy(alloc)?)
    }
}
