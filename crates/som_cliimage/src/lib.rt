//! Client images: the bytes of a client program, read from left to right and written.
//!
//! A client image holds the faces that the client was compiled against, the client's own classes, and main. As for library
//! images, what `decode` answers is said of a `WireProgram`, in which classes and methods go by their numbers and slots
//! (`specs/Reading.antt`, `specs/Naming.antt`), and the code names each body as it reads it (`specs/NamedReading.antt`). A slot
//! stands for the name at that slot of the faces in the image. `encode` goes back (`specs/Numbering.antt`,
//! `specs/Spelling.antt`); `specs/Limits.antt` says what an image has room for.
#![tactic(auto)]

mod client;
mod directory;
mod form;
mod laws;
mod named;
mod numbered;
mod program;
mod wire;

pub use client::{decode, decode_from, encode};
pub use form::ClientForm;
pub use laws::{
    bytes_spell_one_program, image_exists, images_are_within_limits,
    names_of_a_conforming_program_differ, spelling_is_the_image,
};
pub use wire::WireProgram;
