//! The generator: the texts of two releases of any number of classes and of a client that uses each, and the images that they
//! are compiled to.
#![tactic(auto)]

mod bodies;
mod client_main;
mod clients;
mod comparing;
mod edition;
mod fault;
mod interfaces;
mod laws;
mod libraries;
mod limits;
mod made;
mod making;
mod sources;
mod text_laws;
mod words;

pub use bodies::bodies_text;
pub use client_main::main_text;
pub use edition::Edition;
pub use fault::{MakeFault, NotKept, Unmade};
pub use interfaces::interfaces_text;
pub use laws::making_law;
pub use limits::MAX_CLASSES;
pub use made::{Client, Library, Made};
pub use making::make;
pub use sources::{client_texts, library_texts};
pub use text_laws::written_law;
