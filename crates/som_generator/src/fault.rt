//! The types of why the generator makes nothing: a step that refuses, or want of memory.

use som_model::{NoMemory, Text};
use som_sources::TextFault;

/// What a newer release doesn't keep of an older one: the rule, the class of the older one, the name of what is lost or changed,
/// where the rule is about such a thing, and its place.
#[derive(Drop)]
pub struct NotKept {
    pub rule: u8,
    pub class: Text,
    pub name: Option<Text>,
    pub place: u32,
}

/// The first step that refuses: texts aren't compiled, or the second release doesn't keep what the first promised.
#[derive(Drop)]
pub enum Unmade {
    Texts(TextFault),
    NotKept(NotKept),
}

/// Why nothing comes of the generator's texts.
#[derive(Drop)]
pub enum MakeFault {
    Unmade(Unmade),
    NoMemory,
}

impl From<NoMemory> for MakeFault {
    ghost use Rattle.std.specs.Prelude.{◌≡◌};
    ghost use Rattle.som_generator.specs.declared.fault.MakeFault.TheVariants as faults;

    ghost from_gives = { λ _ e. e ≡ faults.NoMemory };

    fn from(_e: NoMemory) -> MakeFault {
        MakeFault::NoMemory
    }
}
