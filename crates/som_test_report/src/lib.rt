//! Where what came of a case isn't what was wanted, and how many such differences there are.
#![tactic(auto)]

mod compare;
mod report;
mod variable;

pub use compare::{Answer, Value};
pub use report::{Place, Report, Sums};
pub use variable::Variable;
