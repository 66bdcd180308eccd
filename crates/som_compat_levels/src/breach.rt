//! The types of what newer levels don't keep, and of why an answer is refused.

ghost use Rattle.som_compat.specs.Told.{told};
ghost use Rattle.som_compat_levels.specs.Told.{IsTold};
ghost use Rattle.std.specs.Prelude.{IfOk};

use som_compat::Breach;
use som_model::{NoMemory, Text};
use std::alloc::Global;

/// What newer levels don't keep: the rule, the class of the older ones, the name of what is lost or changed, its
/// place in the older one, and the number of the class's level. A breach without a name has the name `-`.
#[derive(Drop)]
pub struct LevelBreach {
    pub rule: u8,
    pub class: Text,
    pub name: Text,
    pub place: u32,
    pub level: u8,
}

/// Why newer levels aren't known to keep all.
#[derive(Drop)]
pub enum LevelFault {
    Breach(LevelBreach),
    NoMemory,
}

impl From<NoMemory> for LevelFault {
    ghost use Rattle.std.specs.Prelude.{◌≡◌};
    ghost use Rattle.som_compat_levels.specs.declared.breach.LevelFault.TheVariants as faults;

    ghost from_gives = { λ _ e. e ≡ faults.NoMemory };

    fn from(_e: NoMemory) -> LevelFault {
        LevelFault::NoMemory
    }
}

/// A breach that is lent, with the number of its level, as one of its own.
pub fn owned_breach(alloc: Global, level: u8, breach: &Breach) -> Result<LevelBreach, NoMemory>
    ensures { IfOk result (λ owned. IsTold (level, told breach.now) owned) }
{
    let class = breach.class.copy(alloc)?;
    let name = match breach.name {
        Some(name) => name.copy(alloc)?,
        None => Text::from_slice(alloc, b"-")?,
    };
    Ok(LevelBreach {
        rule: breach.rule,
        class,
        name,
        place: breach.place,
        level,
    })
}
