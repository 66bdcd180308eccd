//! `Local`, a parameter or local variable in scope.

use som_verify_forms::Kind;

/// A parameter or local: its name, which the text holds, and its type.
#[derive(Clone, Copy)]
pub struct Local<'a> {
    pub name: &'a [u8],
    pub kind: Kind,
}
