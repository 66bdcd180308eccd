//! The step that reads the images of libraries that stand one above the other.

ghost use Rattle.som_cmd_levels.specs.Levels.{AreLevelsOf, AreUppers, levels_in, uppers_in};
ghost use Rattle.som_cmd_steps.specs.Cause.{IsQuiet};
ghost use Rattle.som_cmd_steps.specs.Steps.{Follows};
ghost use Rattle.som_order.specs.Names.{name_at};
ghost use Rattle.std.specs.Prelude.{IfOk, drop, length, ◌+◌, ◌≡◌, ◌≤◌};

use crate::level_image::read_level;
use som_cmd_steps::{CommandStop, read_release};
use som_model::{List, Release, Text};
use som_towerimage::Level;
use std::alloc::Global;

/// The library that stands on no other, and the libraries above it, from the lowest up.
#[derive(Drop)]
pub struct LevelsBelow {
    pub base: Release,
    pub uppers: List<Level>,
}

// The libraries of tower images, the first above one level, each next one above one more.
fn read_uppers(
    alloc: Global,
    names: &[Text],
    images: &[List<u8>],
) -> Result<List<Level>, CommandStop>
    requires { length images.now ≡ length names.now }
    ensures follows { Follows result (uppers_in 1 names.now images.now) }
    ensures uppers { IfOk result (AreUppers 1) }
    ensures many { IfOk result (λ ls. length ls ≡ length names.now) }
    ensures quiet { IsQuiet result }
{
    let mut uppers = List::new(alloc);
    for place in 0..names.len() {
        uppers.push(read_level(alloc, &names[place], &images[place], place + 1, false)?)?;
    }
    Ok(uppers)
}

/// The name of the library that stands on no other.
pub(crate) fn base_name(names: &[Text]) -> &Text
    requires { 1 ≤ length names.now }
    ensures { result.now ≡ name_at names.now 0 }
{
    &names[0]
}

fn base_image(images: &[List<u8>]) -> &List<u8>
    requires { 1 ≤ length images.now }
    ensures { result.now ≡ name_at images.now 0 }
{
    &images[0]
}

/// The names of the libraries above it.
pub(crate) fn upper_names(names: &[Text]) -> &[Text]
    requires { 1 ≤ length names.now }
    ensures are { result.now ≡ drop 1 names.now }
    ensures many { length result.now + 1 ≡ length names.now }
{
    &names[1..]
}

fn upper_images(images: &[List<u8>]) -> &[List<u8>]
    requires { 1 ≤ length images.now }
    ensures are { result.now ≡ drop 1 images.now }
    ensures many { length result.now + 1 ≡ length images.now }
{
    &images[1..]
}

/// The libraries of images, the first a library image, and each of the others a tower image that stands above those before it; else the
/// first refusal.
#[tactic(auto, using(crate::proofs::Stacking::lowest_stops, crate::proofs::Stacking::upper_stops, crate::proofs::Stacking::levels_read))]
pub fn read_levels(
    alloc: Global,
    names: &[Text],
    images: &[List<u8>],
) -> Result<LevelsBelow, CommandStop>
    requires alike { length images.now ≡ length names.now }
    requires some { 1 ≤ length names.now }
    ensures follows { Follows result (levels_in names.now images.now) }
    ensures levels { IfOk result (AreLevelsOf names.now) }
    ensures quiet { IsQuiet result }
{
    let base = read_release(alloc, base_name(names), base_image(images))?;
    let uppers = read_uppers(alloc, upper_names(names), upper_images(images))?;
    Ok(LevelsBelow { base, uppers })
}
