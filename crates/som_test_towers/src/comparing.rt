//! A library of a tower compared with an older one, each with the levels below it against which it was compiled.

ghost use Rattle.som_flat_laws.specs.AcceptedTower.{with_own as levels_with_own};
ghost use Rattle.som_level_programs.specs.Towers.{own_interface as interface_by_level};
ghost use Rattle.som_tower.specs.Towers.{IsSound, IsUpper, plain};
ghost use Rattle.std.specs.Prelude.{◌≡◌, IfOk, length};

use crate::reading::{program_conforms, read_level, read_library};
use crate::refused::{Refused, TowerFault};
use crate::telling::{refuse_levels, tell_bytes};
use som_compat_levels::{LevelFault, compatible_levels};
use som_levels::{LevelModules, levels_below};
use som_model::{Interface, List, NoMemory};
use som_rekey::rekey_face;
use som_towerimage::Level;
use std::alloc::Global;

// The faces of a level's own classes, named by levels.
fn own_interface(
    alloc: Global,
    modules: &LevelModules,
    level: &Level,
) -> Result<Interface, NoMemory>
    requires { modules.now ≡ record { sizes = level.now.sizes; client = level.now.client; base = level.now.program.base } }
    ensures { IfOk result (λ i. i ≡ interface_by_level (plain level.now)) }
{
    let mut classes = List::new(alloc);
    for class in level.program.classes.as_slice() {
        classes.push(rekey_face(alloc, modules, &class.face)?)?;
    }
    Ok(Interface { classes })
}

// The levels against which a level was compiled, and above them its own classes.
fn with_own(alloc: Global, level: &Level) -> Result<List<Interface>, NoMemory>
    requires { IsSound level.now }
    ensures { IfOk result (λ is. is ≡ levels_with_own (plain level.now)) }
{
    let modules = LevelModules::new(alloc, &level.sizes, level.client, &level.program.base)?;
    let mut all = levels_below(alloc, &modules)?;
    all.push(own_interface(alloc, &modules, level)?)?;
    Ok(all)
}

// Prints that a library is accepted, where it keeps what an older one promised.
fn compare(rt: &HostRuntime, old: &Level, new: &Level) -> Result<(), Refused>
    requires old { IsUpper (length old.now.sizes) old.now }
    requires new { IsUpper (length old.now.sizes) new.now }
{
    let alloc = rt.alloc();
    let olds = with_own(alloc, old)?;
    let news = with_own(alloc, new)?;
    match compatible_levels(alloc, &olds, &news) {
        Ok(_) => Ok(tell_bytes(rt, b" -> accepted\n")?),
        Err(LevelFault::Breach(breach)) => Err(refuse_levels(alloc, &breach)),
        Err(LevelFault::NoMemory) => Err(Refused::Fault(TowerFault::NoMemory)),
    }
}

/// Compares the libraries of two tower images, which have to have as many levels below them, the older one first.
pub fn compare_files(rt: &HostRuntime, old: &[u8], new: &[u8]) -> Result<(), Refused> {
    let alloc = rt.alloc();
    let before = read_library(rt, old)?;
    let after = read_level(rt, new, before.sizes.as_slice().len(), false)?;
    program_conforms(alloc, old, &before.program)?;
    program_conforms(alloc, new, &after.program)?;
    compare(rt, &before, &after)
}
