//! `Draft`, an interface with the part of its class declaration that asks no other class.

use som_ast::IdlInterface;
use som_model::ClassDecl;

/// An interface, and the class that it declares as far as that is known.
#[derive(Drop)]
pub struct Draft<'a> {
    pub text: &'a IdlInterface,
    pub decl: ClassDecl,
}
