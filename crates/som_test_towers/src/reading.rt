//! Images of towers, read from files: each has to have its place, and to keep the rules.

ghost use Rattle.som_link_check.specs.Pairs.{ProgramCounted, ReleaseCounted};
ghost use Rattle.som_model.specs.Conforming.{ProgramOk, ReleaseOk};
ghost use Rattle.som_test_towers.specs.Reading.{IsRead};
ghost use Rattle.som_towerimage.specs.Spelling.{FitsTower};
ghost use Rattle.std.specs.Prelude.{◌≡◌, IfOk, false, length};

use crate::refused::{Refused, TowerFault};
use crate::telling::{refuse_bytes, refuse_image, refuse_rule};
use som_link_limits::counted_law;
use som_model::{ClientProgram, List, Release};
use som_towerimage::{Level, decode_level};
use som_verify::{VerifyFault, program_ok, release_ok};
use std::alloc::Global;
use std::fs;

fn image(rt: &HostRuntime, name: &[u8]) -> Result<List<u8>, Refused> {
    match str::from_utf8(name) {
        Ok(path) => Ok(List::from_vec(fs::read(rt, path)?)),
        Err(_) => Err(Refused::Fault(TowerFault::Word)),
    }
}

// The level that the bytes of a file spell.
fn decoded(alloc: Global, name: &[u8], bytes: &List<u8>) -> Result<Level, Refused>
    ensures counted { IfOk result (λ l. ProgramCounted l.program) }
    ensures fits { IfOk result FitsTower }
{
    counted_law();
    match decode_level(alloc, bytes) {
        Ok(level) => Ok(level),
        Err(fault) => Err(refuse_bytes(alloc, name, fault)),
    }
}

// The release that the bytes of a file spell.
fn decoded_release(alloc: Global, name: &[u8], bytes: &List<u8>) -> Result<Release, Refused>
    ensures { IfOk result ReleaseCounted }
{
    counted_law();
    match som_libimage::decode(alloc, bytes) {
        Ok(release) => Ok(release),
        Err(fault) => Err(refuse_bytes(alloc, name, fault)),
    }
}

// Whether a level stands above so many levels, and is a client or a library.
fn has_place(
    alloc: Global,
    name: &[u8],
    level: &Level,
    below: usize,
    client: bool,
) -> Result<(), Refused>
    ensures levels { IfOk result (λ _. length level.now.sizes ≡ below) }
    ensures kind { IfOk result (λ _. level.now.client ≡ client) }
{
    if level.sizes.as_slice().len() != below {
        return Err(refuse_image(alloc, name, 5, 5));
    }
    if level.client != client {
        return Err(refuse_image(alloc, name, 4, 6));
    }
    Ok(())
}

/// The level of a tower image, which has to stand above so many levels, and to be a client or a library.
pub fn read_level(
    rt: &HostRuntime,
    name: &[u8],
    below: usize,
    client: bool,
) -> Result<Level, Refused>
    ensures { IfOk result (IsRead below client) }
{
    let alloc = rt.alloc();
    let level = decoded(alloc, name, &image(rt, name)?)?;
    has_place(alloc, name, &level, below, client)?;
    Ok(level)
}

/// The library of a tower image, above however many levels.
pub fn read_library(rt: &HostRuntime, name: &[u8]) -> Result<Level, Refused>
    ensures { IfOk result (λ l. IsRead (length l.sizes) false l) }
{
    let alloc = rt.alloc();
    let level = decoded(alloc, name, &image(rt, name)?)?;
    has_place(alloc, name, &level, level.sizes.as_slice().len(), false)?;
    Ok(level)
}

/// The release of a library image.
pub fn read_release(rt: &HostRuntime, name: &[u8]) -> Result<Release, Refused>
    ensures { IfOk result ReleaseCounted }
{
    decoded_release(rt.alloc(), name, &image(rt, name)?)
}

/// Goes on where a release keeps the rules.
pub fn release_conforms(alloc: Global, name: &[u8], release: &Release) -> Result<(), Refused>
    ensures { IfOk result (λ _. ReleaseOk release.now) }
{
    match release_ok(alloc, release) {
        Ok(_) => Ok(()),
        Err(VerifyFault::Rule(broken)) => Err(refuse_rule(alloc, name, &broken)),
        Err(VerifyFault::NoMemory) => Err(Refused::Fault(TowerFault::NoMemory)),
    }
}

/// Goes on where a program keeps the rules.
pub fn program_conforms(alloc: Global, name: &[u8], program: &ClientProgram) -> Result<(), Refused>
    ensures { IfOk result (λ _. ProgramOk program.now) }
{
    match program_ok(alloc, program) {
        Ok(_) => Ok(()),
        Err(VerifyFault::Rule(broken)) => Err(refuse_rule(alloc, name, &broken)),
        Err(VerifyFault::NoMemory) => Err(Refused::Fault(TowerFault::NoMemory)),
    }
}
