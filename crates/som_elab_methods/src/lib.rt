//! Which methods of a module's classes have bodies in texts, and whether each class is within its limits.
#![tactic(auto)]

mod accessor_bodies;
mod accessors;
mod body_names;
mod counted_bodies;
mod grouped;
mod laws;
mod limits;
mod named_bodies;
mod operations;
mod own_methods;
mod selects;
mod texts;

pub use accessor_bodies::body_named;
pub use accessors::{Accessor, accessor_places, accessors_of};
pub use counted_bodies::bodies_counted;
pub use grouped::ModuleTexts;
pub use laws::limits_law;
pub use limits::limits_kept;
pub use named_bodies::bodies_named;
pub use texts::{all_texts, first_for};
