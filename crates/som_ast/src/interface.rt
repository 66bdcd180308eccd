//! The syntax tree of interface files: interfaces, exports and implementation sections.

use crate::words::{TypeName, Word};
use som_model::List;

/// The interfaces of a file, in order. Forward declarations leave no trace.
#[derive(Drop)]
pub struct IdlFile {
    pub interfaces: List<IdlInterface>,
}

/// An interface: its exports before and after the implementation section, and the items of that section. Without the section
/// there are neither items nor exports after it.
#[derive(Drop)]
pub struct IdlInterface {
    pub name: Word,
    pub parents: List<Word>,
    pub before: List<Export>,
    pub items: List<Item>,
    pub after: List<Export>,
}

/// What an interface introduces. The result of an operation that answers nothing is `None`.
#[derive(Drop)]
pub enum Export {
    Attribute {
        readonly: bool,
        kind: TypeName,
        names: List<Word>,
    },
    Operation {
        result: Option<TypeName>,
        name: Word,
        params: List<Param>,
    },
}

pub struct Param {
    pub kind: TypeName,
    pub name: Word,
}

impl Drop for Param {
    fn drop(self) {
        let Param { kind, name } = self;
        drop(kind);
        drop(name);
    }
}

/// An item of an implementation section.
#[derive(Drop)]
pub enum Item {
    ReleaseOrder {
        names: List<Word>,
    },
    Metaclass {
        name: Word,
    },
    Major {
        number: u32,
    },
    Minor {
        number: u32,
    },
    Method {
        name: Word,
        modifiers: List<Modifier>,
    },
    Variables {
        kind: TypeName,
        names: List<Word>,
    },
}

/// What an item says of a method of this class.
pub enum Modifier {
    Override,
    NameLookup,
    Offset,
    /// The method's implementation is that of a parent.
    Select { parent: Word },
}

impl Drop for Modifier {
    fn drop(self) {
        match self {
            Modifier::Override => {}
            Modifier::NameLookup => {}
            Modifier::Offset => {}
            Modifier::Select { parent } => drop(parent),
        }
    }
}
