//! Tables that answer, for a class and a token, the cell that the class has for it: its own, or one that it inherits.
#![tactic(auto)]

mod blocks;
mod class_no;
mod kind;
mod line;
mod pages;
mod place;
mod row;
mod starts;
mod steps;
mod table;
mod token;

pub use class_no::ClassNo;
pub use kind::{DataKind, Kind, MethodKind};
pub use steps::Steps;
pub use table::Table;
pub use token::{DToken, MToken, Token};
