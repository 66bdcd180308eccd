//! The event of a call: method, manner, and the class whose body runs.

use crate::manner::Manner;
use som_tables::{ClassNo, MToken};

/// The event of a call, which the line of a trace tells: the method, by the token of the class that introduces it, how
/// the body was reached, and the class whose body it is. The Call of `som_interp_state` is a call that is still to be made.
#[derive(Clone, Copy)]
pub struct Call {
    pub method: MToken,
    pub manner: Manner,
    pub class: ClassNo,
}
