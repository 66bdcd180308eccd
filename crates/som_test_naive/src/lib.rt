//! Plain programs for tests: classes and names written in short, ancestors, descent and bodies on classes as numbers, slowly and as the definitions say, and a host of six closures.
#![tactic(auto)]

mod ancestry;
mod class_rows;
mod hosts;
mod resolution;
mod writing;

pub use ancestry::ancestors;
pub use hosts::answer_of;
pub use resolution::{descends, implementation};
pub use writing::{named, plain_class, texts, under_object};
