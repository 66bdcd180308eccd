//! `BodyContext`, what the type checker knows where the text of a body stands.

use som_sema_names::MethodSearch;
use som_sema_scope::Scope;
use som_verify_forms::{CodePlace, Knowledge};

/// Where the text of a body stands: what is known of all classes, what finds the class that introduces a name, what the names
/// of classes stand for, and the place of the code.
#[derive(Clone, Copy)]
pub struct BodyContext<'a, 'i, 'n, 's, 'o, 'b, 'k> {
    pub known: Knowledge<'a>,
    pub search: MethodSearch<'i, 'n>,
    pub scope: &'s Scope<'o, 'b, 'k>,
    pub at: CodePlace,
}
