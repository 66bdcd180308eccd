//! The instructions of a running body that make no call, each as the machine of frames obeys it.
#![tactic(auto)]

mod class;
mod obeying;
mod outcome;
mod plain;
mod print;
mod proxy;
mod spent;
mod step;
mod turn;
mod variables;

pub use obeying::obey;
pub use outcome::Outcome;
pub use spent::{is_call, is_spent};
pub use step::obey_in_place;
