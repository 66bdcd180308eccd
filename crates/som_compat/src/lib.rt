//! Whether a newer interface is compatible with an older one.
#![tactic(auto)]

mod ancestors;
mod breach;
mod conforming;
mod kernel;
mod laws;
mod list;
mod lookup;
mod marks;
mod metaclasses;
mod names;
mod pair;
mod rows;
mod signatures;
mod view;

pub use breach::Breach;
pub use conforming::conforms;
pub use laws::{compatible_along_law, compatible_law, metaclass_law, release_law};
pub use list::check_list;
pub use pair::compatible;
