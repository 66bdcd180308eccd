//! The type of what a newer interface doesn't keep, with the rule, the class and the place.

ghost use Rattle.som_model.specs.Compatible.{declared_name};
ghost use Rattle.std.specs.Prelude.{◌≡◌, option_copied};

use som_model::{ClassKey, Text};

/// What a newer interface doesn't keep: the rule, the class of the older one, the name of what is lost or
/// changed, where the rule is about such a thing, and its place in the older one.
#[derive(Clone, Copy)]
pub struct Breach<'a> {
    pub rule: u8,
    pub class: &'a Text,
    pub name: Option<&'a Text>,
    pub place: u32,
}

/// The name of a declared class.
pub fn declared_text(key: &ClassKey) -> Option<&Text>
    ensures { option_copied result ≡ declared_name key.now }
{
    match key {
        ClassKey::Named { module: _, name } => Some(name),
        ClassKey::Derived { .. } => None,
        ClassKey::Proxy { .. } => None,
    }
}
