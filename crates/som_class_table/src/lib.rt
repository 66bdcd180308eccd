//! The class table: the classes of a run by number, with all that is asked of their methods and members. Classes that can
//! be loaded give all that it asks.
#![tactic(auto)]

mod class_laws;
mod classes;
mod kernel;
mod loading_laws;
mod proxies;
mod tokens;

pub use class_laws::loaded_law;
pub use classes::Classes;
pub use loading_laws::{classes_law, growing_law, lay_law, made_law};
