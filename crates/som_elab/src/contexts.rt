//! `ModuleContext`, what the checker knows of a module before it looks into bodies.

use som_sema_names::MethodSearch;
use som_sema_scope::Scope;
use som_verify_forms::Knowledge;

/// What the bodies of a module's texts stand among: all classes, what finds the one that introduces a name, and what the
/// names of classes stand for.
#[derive(Clone, Copy)]
pub struct ModuleContext<'a, 'i, 'n, 's, 'o, 'b, 'k> {
    pub known: Knowledge<'a>,
    pub search: MethodSearch<'i, 'n>,
    pub scope: &'s Scope<'o, 'b, 'k>,
}
