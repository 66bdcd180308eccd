//! Classes by their names and places, the lists of their ancestors, and the rules of faces, variables and bodies,
//! said of every class and member.
#![tactic(auto)]

mod descent;
mod entries;
mod laws;
mod methods;
mod pass;
mod table;
mod types;

pub use descent::{descends_by, has_place, item};
pub use entries::{entries_at, find_entry, introduced_by};
pub use laws::{declared_lower_law, faces_law, parents_lower_law};
pub use methods::{Method, owner_of};
pub use pass::{breach, refusal};
pub use table::{KERNEL_CLASSES, SOM_CLASS, SOM_CLASS_MGR, class_names, find_class};
pub use types::{Broken, Declared, VerifyFault};
