//! The parts of a class declaration: signatures, release order, face, variables, bodies and overrides.

use crate::key::{ClassKey, MethodRef, ValueType};
use crate::syntax::Block;
use crate::{List, Text};

/// The signature of a method. The names of parameters are no part of it.
pub struct Sig {
    pub result: ValueType,
    pub params: List<ValueType>,
}

impl Drop for Sig {
    fn drop(self) {
        let Sig { result, params } = self;
        drop(result);
        drop(params);
    }
}

/// How `e.m(..)` calls a method: by its place in the release order, or by its name.
#[derive(Clone, Copy, PartialEq, Eq)]
pub enum Way {
    Offset,
    Lookup,
}

/// An entry of a release order: a method that the class introduces, or one that was moved up to an ancestor.
pub enum Entry {
    Introduced { name: Text, sig: Sig, way: Way },
    Moved { name: Text, to: ClassKey },
}

impl Drop for Entry {
    fn drop(self) {
        match self {
            Entry::Introduced { name, sig, way: _ } => {
                drop(name);
                drop(sig);
            }
            Entry::Moved { name, to } => {
                drop(name);
                drop(to);
            }
        }
    }
}

/// What others see of a class. The entries are its effective release order.
pub struct ClassFace {
    pub name: Text,
    pub major: u32,
    pub minor: u32,
    pub parents: List<ClassKey>,
    pub metaclass: Option<ClassKey>,
    pub entries: List<Entry>,
}

impl Drop for ClassFace {
    fn drop(self) {
        let ClassFace {
            name,
            major: _,
            minor: _,
            parents,
            metaclass,
            entries,
        } = self;
        drop(name);
        drop(parents);
        drop(metaclass);
        drop(entries);
    }
}

/// An instance variable, which only the bodies of its class see.
pub struct Variable {
    pub name: Text,
    pub kind: ValueType,
}

impl Drop for Variable {
    fn drop(self) {
        let Variable { name, kind } = self;
        drop(name);
        drop(kind);
    }
}

/// The body of a method: a block, or one that reads or writes the variable at a place.
pub enum Body {
    User(Block),
    Get(u8),
    Set(u8),
}

impl Drop for Body {
    fn drop(self) {
        match self {
            Body::User(it) => drop(it),
            Body::Get(_) => {}
            Body::Set(_) => {}
        }
    }
}

/// A body for a method that an ancestor introduces.
pub struct Override {
    pub method: MethodRef,
    pub block: Block,
}

impl Drop for Override {
    fn drop(self) {
        let Override { method, block } = self;
        drop(method);
        drop(block);
    }
}

/// The body that a parent, by its place among the parents, has for a method that an ancestor introduces.
pub struct Select {
    pub method: MethodRef,
    pub parent: u8,
}

impl Drop for Select {
    fn drop(self) {
        let Select { method, parent: _ } = self;
        drop(method);
    }
}

/// A class as it is declared. There is one body for each introduced entry, in their order. A method that
/// the class selects from a parent has no body here.
#[derive(Drop)]
pub struct ClassDecl {
    pub face: ClassFace,
    pub variables: List<Variable>,
    pub bodies: List<Body>,
    pub overrides: List<Override>,
    pub selects: List<Select>,
}
