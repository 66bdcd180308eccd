//! The steps from the images of libraries that stand one above the other to their flat interface.

ghost use Rattle.som_cmd_levels.specs.Levels.{AreLevelsOf, LevelsConform};
ghost use Rattle.som_cmd_steps.specs.Cause.{IsQuiet};
ghost use Rattle.som_cmd_steps.specs.Steps.{Follows};
ghost use Rattle.som_cmd_tower_make.specs.TowerParts.{base_in, classes_kept, flat_in, flat_kept_or, standing_in};
ghost use Rattle.som_compat_levels.specs.Conditions.{AreLoadableLevels};
ghost use Rattle.som_flat.specs.Breaches.{flat_breach};
ghost use Rattle.som_flat_laws.specs.Flat.{flat_interface as flat_of};
ghost use Rattle.som_order.specs.Names.{name_at};
ghost use Rattle.std.specs.Prelude.{IfOk, length, ◌<◌, ◌≡◌, ◌≤◌};

use som_cmd_levels::{LevelsBelow, breach_level_law, look_at_levels, read_levels, refuse_level};
use som_cmd_sources::refuse_limit;
use som_cmd_steps::{CommandStop, refuse_broken};
use som_compat_levels::LevelFault;
use som_flat::{FlatFault, flat_interface, flat_rules, sizes_of};
use som_model::{Interface, List, MAX_LIBRARY_CLASSES, Text};
use som_tower::standing_levels;
use std::alloc::Global;

/// The flat interface of libraries one above the other, and how many classes each of them has.
#[derive(Drop)]
pub struct TowerBase {
    pub interface: Interface,
    pub sizes: List<u16>,
}

// The interfaces of libraries, where each keeps what those above it were compiled against.
#[tactic(auto, using(crate::proofs::BaseSteps::stands, crate::proofs::BaseSteps::not_standing, crate::proofs::SoundBases::libraries_of, crate::proofs::SoundBases::standing_many, crate::proofs::SoundBases::level_named))]
fn standing(
    alloc: Global,
    names: &[Text],
    below: &LevelsBelow,
) -> Result<List<Interface>, CommandStop>
    requires levels { AreLevelsOf names.now below.now }
    requires conform { LevelsConform below.now }
    requires few { length names.now ≤ 8 }
    ensures follows { Follows result (standing_in names.now below.now) }
    ensures loadable { IfOk result AreLoadableLevels }
    ensures many { IfOk result (λ is. length is ≡ length names.now) }
    ensures quiet { IsQuiet result }
{
    breach_level_law();
    match standing_levels(alloc, &below.base, &below.uppers) {
        Ok(interfaces) => Ok(interfaces),
        Err(LevelFault::Breach(breach)) => {
            Err(CommandStop::Refused(refuse_level(alloc, names, &breach)?))
        }
        Err(LevelFault::NoMemory) => Err(CommandStop::NoMemory),
    }
}

// The name at a place.
fn name_of(names: &[Text], level: u8) -> &Text
    requires { level < length names.now }
    ensures { result.now ≡ name_at names.now level }
{
    &names[usize::from(level)]
}

// Goes on where the flat interface breaks no rule; else the refusal tells the first that it breaks, under the name of the level of the class.
#[tactic(auto, using(crate::proofs::BaseSteps::flat_kept, crate::proofs::BaseSteps::flat_broken, crate::proofs::SoundBases::flat_named))]
fn look_at_flat(
    alloc: Global,
    names: &[Text],
    levels: &List<Interface>,
    flat: &Interface,
) -> Result<(), CommandStop>
    requires levels { AreLoadableLevels levels.now }
    requires flat { flat.now ≡ flat_of levels.now }
    requires many { length levels.now ≡ length names.now }
    ensures follows { Follows result (flat_kept_or names.now (flat_breach levels.now)) }
    ensures quiet { IsQuiet result }
{
    match flat_rules(alloc, levels, flat) {
        Ok(()) => Ok(()),
        Err(FlatFault::Rule { level, broken }) => Err(CommandStop::Refused(refuse_broken(
            alloc,
            name_of(names, level),
            &broken,
        )?)),
        Err(FlatFault::NoMemory) => Err(CommandStop::NoMemory),
    }
}

// Goes on where so many classes aren't too many.
#[tactic(auto, using(crate::proofs::BaseSteps::many_classes, crate::proofs::BaseSteps::few_classes))]
fn look_at_count(alloc: Global, count: usize) -> Result<(), CommandStop>
    ensures follows { Follows result (classes_kept count) }
    ensures quiet { IsQuiet result }
{
    if count > MAX_LIBRARY_CLASSES as usize {
        return Err(CommandStop::Refused(refuse_limit(alloc, b"classes", MAX_LIBRARY_CLASSES)?));
    }
    Ok(())
}

// The flat interface of levels, where it breaks no rule and has not too many classes.
#[tactic(auto, using(crate::proofs::BaseSteps::flat_stops, crate::proofs::BaseSteps::count_stops, crate::proofs::BaseSteps::flat_made))]
fn flat_base(
    alloc: Global,
    names: &[Text],
    levels: &List<Interface>,
) -> Result<TowerBase, CommandStop>
    requires levels { AreLoadableLevels levels.now }
    requires many { length levels.now ≡ length names.now }
    ensures follows { Follows result (flat_in names.now levels.now) }
    ensures quiet { IsQuiet result }
{
    let interface = flat_interface(alloc, levels)?;
    look_at_flat(alloc, names, levels, &interface)?;
    look_at_count(alloc, interface.classes.len())?;
    let sizes = sizes_of(alloc, levels)?;
    Ok(TowerBase { interface, sizes })
}

/// The flat interface of the libraries of images, the lowest first, where none breaks a rule, each keeps what those above it were compiled
/// against, and it breaks no rule either and has not too many classes; else the first refusal.
#[tactic(auto, using(crate::proofs::BaseSteps::levels_stop, crate::proofs::BaseSteps::rules_stop, crate::proofs::BaseSteps::standing_stops, crate::proofs::BaseSteps::base_made))]
pub(crate) fn read_base(
    alloc: Global,
    names: &[Text],
    images: &[List<u8>],
) -> Result<TowerBase, CommandStop>
    requires alike { length images.now ≡ length names.now }
    requires some { 1 ≤ length names.now }
    requires few { length names.now ≤ 8 }
    ensures follows { Follows result (base_in names.now images.now) }
    ensures quiet { IsQuiet result }
{
    let below = read_levels(alloc, names, images)?;
    look_at_levels(alloc, names, &below)?;
    let interfaces = standing(alloc, names, &below)?;
    flat_base(alloc, names, &interfaces)
}
