//! Library images: the bytes of a release, read from left to right and written.
//!
//! What `decode` answers is said in two steps. The bytes are those of a `WireRelease`, in which classes and methods go by their
//! numbers and slots (`specs/Reading.antt`); then keys and names take their places (`specs/Naming.antt`). The code names each part
//! as it reads it (`specs/NamedReading.antt`), and makes no `WireRelease`.
//!
//! `encode` goes back in two steps: keys and names become numbers and slots (`specs/Numbering.antt`), and each field is
//! written in its one spelling (`specs/Spelling.antt`). `specs/Limits.antt` says what an image has room for.
#![tactic(auto)]

mod laws;
mod library;
mod numbered;
mod release;
mod wire;

pub use laws::{
    bytes_spell_one_release, image_exists, images_are_within_limits,
    names_of_a_conforming_release_differ, spelling_is_the_image,
};
pub use library::{decode, encode};
pub use wire::WireRelease;
