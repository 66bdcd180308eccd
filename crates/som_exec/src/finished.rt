//! The outcome of a run, with the fuel that is left.

use som_interp_task::Outcome;

/// What a run came to, and, where main is over, the units that are left of its fuel.
#[derive(Drop)]
pub struct Finished {
    pub outcome: Outcome,
    pub left: u32,
}
