//! Tower images: the bytes of a level of a tower of libraries, or of a client of one.
//!
//! A tower image has a head, which says how many classes each level below has, and then a whole client image over all these
//! classes together. `decode_level` reads the head (`specs/Reading.antt`) and then the client image where it stands, which has to have
//! as many classes in its base as the levels below have, and a library's no statement in main. `specs/Spelling.antt` says
//! which levels fit, and how one is spelled.
#![tactic(auto)]

mod head;
mod laws;
mod level;
mod tower;

pub use laws::{
    bytes_spell_one_level, level_or_fault, spelling_is_the_tower_image, tower_image_exists,
};
pub use level::{Level, MAX_BELOW_CLIENT, MAX_BELOW_LIBRARY};
pub use tower::{decode_level, encode_level};
