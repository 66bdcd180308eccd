//! Laws of rows that are filled class by class: rows of methods have the bodies of the classes that answer, rows of
//! variables have places, and the classes of a run can be laid out so. The contracts of functions with no body, which proofs of
//! other crates cite.
#![tactic(auto)]

mod laying_laws;
mod scheme_laws;

pub use laying_laws::{bodies_law, first_parent_law, laying_law, places_law, placing_law};
pub use scheme_laws::{row_law, scheme_law};
