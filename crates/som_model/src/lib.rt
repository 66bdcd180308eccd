//! The types that all layers share, and, in `specs/`, the definitions that their contracts cite.
#![tactic(auto)]

mod boxed;
mod class;
mod copy_class;
mod copy_key;
mod copy_syntax;
mod key;
mod limits;
mod list;
mod memory;
mod program;
mod same;
mod sizes;
mod syntax;
mod text;
mod text_bytes;

pub use boxed::Boxed;
pub use class::{Body, ClassDecl, ClassFace, Entry, Override, Select, Sig, Variable, Way};
pub use key::{ClassKey, MethodRef, Module, ValueType};
pub use limits::{
    DEFAULT_FUEL, MAX_BYTES, MAX_CLIENT_CLASSES, MAX_DEPTH, MAX_ENTRIES, MAX_FUEL,
    MAX_LAID_CLASSES, MAX_LIBRARY_CLASSES, MAX_LOCALS, MAX_NAME, MAX_NESTING, MAX_OVERRIDES,
    MAX_PARAMETERS, MAX_PARENTS, MAX_SELECTS, MAX_TEXT, MAX_VARIABLES, MAX_VERSION,
};
pub use list::List;
pub use memory::NoMemory;
pub use program::{ClientProgram, Fault, Interface, Release};
pub use syntax::{Block, Expr, HostCode, Stmt};
pub use text::Text;
