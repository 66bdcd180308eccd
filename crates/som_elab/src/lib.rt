//! Elaborates releases and clients: the named programs that texts stand for, or the first thing that is wrong with the texts.
#![tactic(auto)]

mod all_bodies;
mod build;
mod class_bodies;
mod classes;
mod contexts;
mod elaborated;
mod laws;

pub use all_bodies::{AllBodies, checked_bodies};
pub use build::{build_release, elaborate};
pub use class_bodies::ClassBodies;
pub use classes::completed_classes;
pub use contexts::ModuleContext;
pub use laws::conforming_law;
pub use som_elab_methods::limits_law;
