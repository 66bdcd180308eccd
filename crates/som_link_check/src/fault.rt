//! The fault of linking, with the names that its line tells.

ghost use Rattle.som_compat.specs.Told.{told};
ghost use Rattle.som_link_check.specs.Told.{TellsBreach, or_dash};
ghost use Rattle.std.specs.Prelude.{◌≡◌, IfOk, option_copied};

use som_compat::Breach;
use som_model::{NoMemory, Text};
use som_verify_classes::Broken;
use std::alloc::Global;

/// Why a client isn't linked with a library: a rule that the library breaks, or else, as `client` says, the client; or what the library doesn't keep
/// of that which the client was compiled against, with the class, the name of what is lost or changed, which is `-` where there is none, and its place.
#[derive(Drop)]
pub enum LinkFault {
    NotConforming {
        client: bool,
        broken: Broken,
    },
    Incompatible {
        rule: u8,
        class: Text,
        name: Text,
        place: u32,
    },
    NoMemory,
}

impl From<NoMemory> for LinkFault {
    ghost use Rattle.std.specs.Prelude.{◌≡◌};
    ghost use Rattle.som_link_check.specs.declared.fault.LinkFault.TheVariants as faults;

    ghost from_gives = { λ _ e. e ≡ faults.NoMemory };

    fn from(_e: NoMemory) -> LinkFault {
        LinkFault::NoMemory
    }
}

/// A name, or a dash where there is none.
fn or_dash(alloc: Global, name: Option<&Text>) -> Result<Text, NoMemory>
    ensures { IfOk result (λ text. text ≡ or_dash (option_copied name.entry)) }
{
    match name {
        Some(name) => name.copy(alloc),
        None => Text::from_slice(alloc, b"-"),
    }
}

/// The names that a breach tells: that of the class, and that of what is lost or changed.
fn names_of(alloc: Global, breach: &Breach<'_>) -> Result<(Text, Text), NoMemory>
    ensures { IfOk result (λ names. (names.0 ≡ (told breach.now).class) × (names.1 ≡ or_dash (told breach.now).name)) }
{
    let class = breach.class.copy(alloc)?;
    let name = or_dash(alloc, breach.name)?;
    Ok((class, name))
}

/// What tells a breach, or want of memory for its names.
pub(crate) fn incompatible(alloc: Global, breach: &Breach<'_>) -> LinkFault
    ensures { TellsBreach (told breach.now) result }
{
    match names_of(alloc, breach) {
        Ok((class, name)) => LinkFault::Incompatible {
            rule: breach.rule,
            class,
            name,
            place: breach.place,
        },
        Err(_) => LinkFault::NoMemory,
    }
}
