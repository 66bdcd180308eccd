//! The names of classes, of methods and of types.

use crate::{Boxed, List, Text};

/// Where a named class stands: in the kernel, in the library, in a library above it, or in the client.
#[derive(Clone, Copy, PartialEq, Eq)]
pub enum Module {
    Kernel,
    Library,
    /// A library above the lowest one, counted from it. No class has this module so far.
    Upper(u8),
    Client,
}

/// The name of a class: a declared one by its module and name, a made one by what it is made of.
pub enum ClassKey {
    Named { module: Module, name: Text },
    /// The metaclass that is derived from several.
    Derived { parents: List<ClassKey> },
    /// The class of the proxies of a class.
    Proxy { of: Boxed<ClassKey> },
}

impl Drop for ClassKey {
    fn drop(self) {
        match self {
            ClassKey::Named { module: _, name } => drop(name),
            ClassKey::Derived { parents } => drop(parents),
            ClassKey::Proxy { of } => drop(of),
        }
    }
}

/// The type of a value; `Void` is the result of a method that answers nothing.
pub enum ValueType {
    Void,
    Long,
    Boolean,
    Str,
    Class(ClassKey),
}

impl Drop for ValueType {
    fn drop(self) {
        match self {
            ValueType::Void => {}
            ValueType::Long => {}
            ValueType::Boolean => {}
            ValueType::Str => {}
            ValueType::Class(it) => drop(it),
        }
    }
}

/// The name of a method: a class, and the name of one of its entries.
pub struct MethodRef {
    pub class: ClassKey,
    pub name: Text,
}

impl Drop for MethodRef {
    fn drop(self) {
        let MethodRef { class, name } = self;
        drop(class);
        drop(name);
    }
}
