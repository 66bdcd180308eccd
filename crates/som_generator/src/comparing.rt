//! Compares the two generated releases, and copies the names of what isn't kept.

ghost use Rattle.som_compat.specs.Conditions.{Conforms};
ghost use Rattle.som_compat.specs.Told.{told};
ghost use Rattle.som_generator.specs.Making.{Answers, breach_of};
ghost use Rattle.som_generator.specs.Steps.{ComparingComes};
ghost use Rattle.som_model.specs.Class.{interface_of};
ghost use Rattle.std.specs.Prelude.{[], ◌≡◌, ◌∷◌, IfOk, option_copied};

use crate::fault::{MakeFault, NotKept, Unmade};
use som_compat::{Breach, check_list};
use som_model::{Interface, List, NoMemory, Release, Text};
use std::alloc::Global;

// A name of its own, if there is one.
fn copied(alloc: Global, name: Option<&Text>) -> Result<Option<Text>, NoMemory>
    ensures { IfOk result (λ copy. copy ≡ option_copied name.entry) }
{
    match name {
        Some(name) => Ok(Some(name.copy(alloc)?)),
        None => Ok(None),
    }
}

// What isn't kept, with names of its own.
fn not_kept(alloc: Global, breach: &Breach<'_>) -> Result<NotKept, NoMemory>
    ensures { IfOk result (λ lost. breach_of lost ≡ told breach.now) }
{
    Ok(NotKept {
        rule: breach.rule,
        class: breach.class.copy(alloc)?,
        name: copied(alloc, breach.name)?,
        place: breach.place,
    })
}

// What both releases show.
fn interfaces(alloc: Global, first: &Release, second: &Release) -> Result<List<Interface>, NoMemory>
    ensures { IfOk result (λ all. all ≡ interface_of first.now ∷ interface_of second.now ∷ []) }
{
    let mut all = List::new(alloc);
    all.push(first.interface(alloc)?)?;
    all.push(second.interface(alloc)?)?;
    Ok(all)
}

/// Goes on where the second release is accepted against the first.
pub fn compare(alloc: Global, first: &Release, second: &Release) -> Result<(), MakeFault>
    requires first { Conforms (interface_of first.now) }
    requires second { Conforms (interface_of second.now) }
    ensures { Answers (ComparingComes (interface_of first.now) (interface_of second.now)) result }
{
    let all = interfaces(alloc, first, second)?;
    match check_list(&all) {
        Ok(_) => Ok(()),
        Err((_, breach)) => Err(MakeFault::Unmade(Unmade::NotKept(not_kept(alloc, &breach)?))),
    }
}
