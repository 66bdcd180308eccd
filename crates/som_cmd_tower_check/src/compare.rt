//! Two libraries that stand above others, each with the levels below it against which it was compiled, are compared.

ghost use Rattle.som_cmd_steps.specs.Cause.{IsQuiet};
ghost use Rattle.som_cmd_steps.specs.Steps.{Follows};
ghost use Rattle.som_cmd_tower_check.specs.Libraries.{IsSoundLibrary, own_under, promised};
ghost use Rattle.som_cmd_tower_check.specs.TowerCheckAnswer.{accepted_or, first_lost};
ghost use Rattle.som_level_programs.specs.ByLevels.{level_change};
ghost use Rattle.som_levels.specs.Flat.{IsFlat};
ghost use Rattle.std.specs.Prelude.{IfOk, length, ◌≡◌};

use som_cmd_levels::refuse_level_breach;
use som_cmd_steps::{CommandStop, line_of};
use som_compat_levels::{LevelFault, compatible_levels};
use som_levels::{LevelModules, levels_below};
use som_model::{ClientProgram, Interface, List, NoMemory, Text};
use som_rekey::rekey_face;
use som_towerimage::Level;
use std::alloc::Global;

// The interface of a program's own classes, by levels.
fn own_interface(
    alloc: Global,
    modules: &LevelModules,
    program: &ClientProgram,
) -> Result<Interface, NoMemory>
    ensures { IfOk result (λ i. i ≡ own_under (level_change modules.now.sizes modules.now.client modules.now.base) program.now) }
{
    let mut classes = List::new(alloc);
    for class in program.classes.as_slice() {
        classes.push(rekey_face(alloc, modules, &class.face)?)?;
    }
    Ok(Interface { classes })
}

// What a library promises, with the levels below it.
#[tactic(auto, using(crate::proofs::Promising::promised_so))]
fn promised(alloc: Global, level: &Level) -> Result<List<Interface>, NoMemory>
    requires { IsFlat level.now.sizes level.now.program.base }
    ensures { IfOk result (λ is. is ≡ promised level.now) }
{
    let modules = LevelModules::new(alloc, &level.sizes, level.client, &level.program.base)?;
    let mut levels = levels_below(alloc, &modules)?;
    levels.push(own_interface(alloc, &modules, &level.program)?)?;
    Ok(levels)
}

/// The line that accepts a newer library, where it keeps all that the older one promises.
#[tactic(auto, using(crate::proofs::Promising::is_flat, crate::proofs::Comparing::may_compare, crate::proofs::Comparing::accepts_so, crate::proofs::Comparing::refuses_so))]
pub(crate) fn compare(
    alloc: Global,
    name: &Text,
    old: &Level,
    new: &Level,
) -> Result<Text, CommandStop>
    requires old { IsSoundLibrary old.now }
    requires new { IsSoundLibrary new.now }
    requires alike { length new.now.sizes ≡ length old.now.sizes }
    ensures follows { Follows result (accepted_or name.now (first_lost old.now new.now)) }
    ensures quiet { IsQuiet result }
{
    let olds = promised(alloc, old)?;
    let news = promised(alloc, new)?;
    match compatible_levels(alloc, &olds, &news) {
        Ok(()) => Ok(line_of(alloc, b"accepted")?),
        Err(LevelFault::Breach(breach)) => Err(CommandStop::Refused(refuse_level_breach(
            alloc, name, &breach,
        )?)),
        Err(LevelFault::NoMemory) => Err(CommandStop::NoMemory),
    }
}
