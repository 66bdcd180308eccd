//! A tower by the files of its images: they are read, and then held to the rules.

ghost use Rattle.som_test_towers.specs.Reading.{AllConform, AreRead, IsReadTower};
ghost use Rattle.som_tower.specs.Towers.{IsTowerOf};
ghost use Rattle.std.specs.Prelude.{◌≡◌, IfOk, length};

use crate::reading::{program_conforms, read_level, read_release, release_conforms};
use crate::refused::Refused;
use som_model::{List, Release};
use som_towerimage::Level;
use std::alloc::Global;

/// The files of a tower: its client's, that of the lowest library, and those of the libraries above it, the lowest first.
#[derive(Clone, Copy)]
pub struct Files<'a> {
    pub client: &'a [u8],
    pub base: &'a [u8],
    pub uppers: &'a [&'a [u8]],
}

/// What the files of a tower hold.
#[derive(Drop)]
pub struct Tower {
    pub client: Level,
    pub base: Release,
    pub uppers: List<Level>,
}

// The libraries of tower images, each above one level more than the one before it.
fn read_uppers(rt: &HostRuntime, names: &[&[u8]]) -> Result<List<Level>, Refused>
    ensures read { IfOk result AreRead }
    ensures many { IfOk result (λ levels. length levels ≡ length names.now) }
{
    let mut levels = List::new(rt.alloc());
    for (place, name) in names.iter().enumerate() {
        levels.push(read_level(rt, name, place + 1, false)?)?;
    }
    Ok(levels)
}

/// Reads the images of a tower, the client's first. Each has to have its place.
pub fn read_tower(rt: &HostRuntime, files: &Files<'_>) -> Result<Tower, Refused>
    ensures read { IfOk result IsReadTower }
    ensures many { IfOk result (λ t. length t.uppers ≡ length files.now.uppers.now) }
{
    let client = read_level(rt, files.client, files.uppers.len() + 1, true)?;
    let base = read_release(rt, files.base)?;
    let uppers = read_uppers(rt, files.uppers)?;
    Ok(Tower {
        client,
        base,
        uppers,
    })
}

// Goes on where the program of each level keeps the rules.
fn all_conform(alloc: Global, names: &[&[u8]], levels: &[Level]) -> Result<(), Refused>
    requires { length names.now ≡ length levels.now }
    ensures { IfOk result (λ _. AllConform levels.now) }
{
    for place in 0..names.len() {
        program_conforms(alloc, names[place], &levels[place].program)?;
    }
    Ok(())
}

/// Goes on where all of a tower keep the rules: it is looked at from the lowest library up, and at the client last.
pub fn conform(alloc: Global, files: &Files<'_>, tower: &Tower) -> Result<(), Refused>
    requires read { IsReadTower tower.now }
    requires many { length tower.now.uppers ≡ length files.now.uppers.now }
    ensures { IfOk result (λ _. IsTowerOf tower.now.base tower.now.uppers tower.now.client) }
{
    release_conforms(alloc, files.base, &tower.base)?;
    all_conform(alloc, files.uppers, tower.uppers.as_slice())?;
    program_conforms(alloc, files.client, &tower.client.program)?;
    Ok(())
}
