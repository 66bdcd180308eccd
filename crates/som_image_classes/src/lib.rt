//! The classes of images: heads, faces, parts and selects, which those of libraries and of clients have in common.
//!
//! They are read from left to right, each by a step of its own (`specs/ReadClasses.antt`), and written in their one spelling
//! (`specs/SpelledClasses.antt`). By a `Directory` of `som_image_decode` parts are read with names (`specs/NamedReading.antt`), and
//! whole classes are named (`specs/NamedClasses.antt`). The crate `som_image_encode` goes back.
#![tactic(auto)]

mod class_laws;
mod faces;
mod head;
mod named_class;
mod named_face;
mod named_part;
mod named_selects;
mod parts;
mod section;

pub use class_laws::named_faces_are_spelled;
pub use faces::{KERNEL_CLASSES, ranges_of, read_faces, read_faces_after, with_faces};
pub use head::{new_image, read_head};
pub use named_class::name_classes;
pub use named_face::{name_face, name_interface, name_interface_by};
pub use named_part::NamedPart;
pub use parts::{read_parts, with_parts};
pub use section::{read_section, version_with, with_section};
