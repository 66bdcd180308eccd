//! A small hierarchy in memory, over which the choices of metaclasses, hooks and forwards are worked out.
#![tactic(auto)]

mod names;
mod rows;
mod sample;
mod worked;

pub use names::{diamond, find};
pub use sample::Sample;
pub use worked::{forwards_of_lowest, hooks_of_both, metaclass_of_both, metaclass_of_one};
