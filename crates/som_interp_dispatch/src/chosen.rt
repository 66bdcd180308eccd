//! The body chosen in a call, and what is left after it.

use som_interp_state::{BodyView, Stage};

/// Whose body is invoked in a call: a hook's, before or after, or the method's.
#[derive(Clone, Copy)]
pub enum Role {
    Before,
    Method,
    After,
}

/// The body of a call that is next, and from where on bodies are left after it.
#[derive(Clone, Copy)]
pub struct Chosen<'a> {
    pub body: BodyView<'a>,
    pub role: Role,
    pub rest: Stage,
}
