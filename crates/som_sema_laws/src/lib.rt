//! That the classes for which texts stand have the faces, the variables and the replaced methods that their interfaces say.
#![tactic(auto)]

mod laws;

pub use laws::{declaring_law, one_face_law};
