//! A tower built level by level: each is compared with those below it, and its classes are added.

ghost use Rattle.som_class_ids.specs.Classes.{classes_of};
ghost use Rattle.som_compat_levels.specs.Conditions.{AreComparable};
ghost use Rattle.som_compat_levels.specs.Told.{TellsLevels};
ghost use Rattle.som_level_laws.specs.Levels.{CompatibleLevels, first_level_break};
ghost use Rattle.som_level_programs.specs.ByLevels.{levels_below as levels_of, own_by_level};
ghost use Rattle.som_level_programs.specs.Towers.{own_interface as interface_by_level};
ghost use Rattle.som_tower.specs.Standing.{AreBuilt};
ghost use Rattle.som_levels.specs.Flat.{IsFlat};
ghost use Rattle.som_tower.specs.Towers.{plain};
ghost use Rattle.std.specs.Prelude.{◌≡◌, ◌++◌, ◌∷◌, [], IfOk, OnOk};

use crate::library::keyed_library;
use som_class_ids::Keyed;
use som_compat_levels::{LevelFault, compatible_levels};
use som_levels::{LevelModules, are_levels_below, levels_below, note_own};
use som_model::{Interface, List, NoMemory, Release};
use som_rekey::rekey_face;
use som_towerimage::Level;
use std::alloc::Global;

/// The interfaces and the classes of levels, the lowest first.
#[derive(Drop)]
pub(crate) struct Built {
    pub(crate) interfaces: List<Interface>,
    pub(crate) classes: List<Keyed>,
}

/// A library alone.
pub(crate) fn ground(alloc: Global, base: &Release) -> Result<Built, NoMemory>
    ensures { IfOk result (λ b. AreBuilt base.now [] b.interfaces b.classes) }
{
    let classes = keyed_library(alloc, base)?;
    let mut interfaces = List::new(alloc);
    interfaces.push(base.interface(alloc)?)?;
    Ok(Built {
        interfaces,
        classes,
    })
}

/// Compares what a level was compiled against with the levels below it. Where it was compiled against these, nothing is copied.
pub(crate) fn compare(
    alloc: Global,
    modules: &LevelModules,
    below: &List<Interface>,
) -> Result<(), LevelFault>
    requires { AreComparable (levels_of modules.now.sizes modules.now.client modules.now.base) below.now }
    ensures tells { TellsLevels (first_level_break (levels_of modules.now.sizes modules.now.client modules.now.base) below.now) result }
    ensures kept { OnOk result (CompatibleLevels (levels_of modules.now.sizes modules.now.client modules.now.base) below.now) }
{
    if are_levels_below(modules, below) {
        return Ok(());
    }
    let compiled_against = levels_below(alloc, modules)?;
    compatible_levels(alloc, &compiled_against, below)
}

// The faces of a level's own classes by levels.
fn own_interface(
    alloc: Global,
    modules: &LevelModules,
    level: &Level,
) -> Result<Interface, NoMemory>
    requires sizes { modules.now.sizes ≡ level.now.sizes }
    requires client { modules.now.client ≡ level.now.client }
    requires base { modules.now.base ≡ level.now.program.base }
    ensures { IfOk result (λ i. i ≡ interface_by_level (plain level.now)) }
{
    let mut classes = List::new(alloc);
    for class in level.program.classes.as_slice() {
        classes.push(rekey_face(alloc, modules, &class.face)?)?;
    }
    Ok(Interface { classes })
}

// Adds a level that keeps what it was compiled against.
fn add_level(
    alloc: Global,
    modules: &LevelModules,
    level: &Level,
    built: &mut Built,
) -> Result<(), NoMemory>
    requires sizes { modules.now.sizes ≡ level.now.sizes }
    requires client { modules.now.client ≡ level.now.client }
    requires base { modules.now.base ≡ level.now.program.base }
    ensures interfaces { OnOk result (built.new.interfaces ≡ built.old.interfaces ++ interface_by_level (plain level.now) ∷ []) }
    ensures classes { OnOk result (classes_of built.new.classes ≡ classes_of built.old.classes ++ own_by_level level.now.sizes level.now.client level.now.program) }
{
    note_own(alloc, modules, &level.program, &mut built.classes)?;
    built
        .interfaces
        .push(own_interface(alloc, modules, level)?)?;
    Ok(())
}

/// A level stands above those that were built so far, if these keep what it was compiled against; else what they break first is answered.
pub(crate) fn stand(alloc: Global, level: &Level, built: &mut Built) -> Result<(), LevelFault>
    requires flat { IsFlat level.now.sizes level.now.program.base }
    requires comparable { AreComparable (levels_of level.now.sizes level.now.client level.now.program.base) built.old.interfaces }
    ensures tells { TellsLevels (first_level_break (levels_of level.now.sizes level.now.client level.now.program.base) built.old.interfaces) result }
    ensures kept { OnOk result (CompatibleLevels (levels_of level.now.sizes level.now.client level.now.program.base) built.old.interfaces) }
    ensures interfaces { OnOk result (built.new.interfaces ≡ built.old.interfaces ++ interface_by_level (plain level.now) ∷ []) }
    ensures classes { OnOk result (classes_of built.new.classes ≡ classes_of built.old.classes ++ own_by_level level.now.sizes level.now.client level.now.program) }
{
    let modules = LevelModules::new(alloc, &level.sizes, level.client, &level.program.base)?;
    compare(alloc, &modules, &built.interfaces)?;
    add_level(alloc, &modules, level, built)?;
    Ok(())
}
