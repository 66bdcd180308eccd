//! The plan of the next body of a call.

use crate::Begun;
use som_interp_dispatch::Role;
use som_interp_state::Stage;

/// The body of a call that is invoked next: what begins, whose body it is, and from where on bodies are left after it.
#[derive(Clone, Copy)]
pub(crate) struct Plan {
    pub begun: Begun,
    pub role: Role,
    pub rest: Stage,
}
