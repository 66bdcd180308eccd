//! The kernel of a tower, and what it is asked.

ghost use Rattle.som_tower.specs.Towers.{IsTowerOf};

use crate::refused::{Refused, TowerFault};
use crate::telling::{refuse_levels, tell_bytes};
use crate::tower::{Files, Tower, conform, read_tower};
use som_classmgr::{Kernel, Linked};
use som_compat_levels::LevelFault;
use som_model::{List, NoMemory};
use som_test_queries::ask_all;
use som_tower::lay_tower;
use std::alloc::Global;

// What laying a tower comes to.
fn lay(alloc: Global, tower: &Tower) -> Result<Result<Kernel<Linked>, LevelFault>, NoMemory>
    requires { IsTowerOf tower.now.base tower.now.uppers tower.now.client }
{
    Ok(lay_tower(
        Kernel::new()?,
        alloc,
        &tower.base,
        &tower.uppers,
        &tower.client,
    ))
}

// Prints what a kernel answers to each question.
fn ask(rt: &HostRuntime, kernel: &mut Kernel<Linked>, questions: &[u8]) -> Result<(), Refused> {
    let alloc = rt.alloc();
    let mut out = List::new(alloc);
    ask_all(alloc, kernel, questions, &mut out)?;
    tell_bytes(rt, out.as_slice())?;
    Ok(())
}

fn ask_kernel(rt: &HostRuntime, kernel: Kernel<Linked>, questions: &[u8]) -> Result<(), Refused> {
    let mut kernel = kernel;
    ask(rt, &mut kernel, questions)
}

fn ask_laid(rt: &HostRuntime, tower: &Tower, questions: &[u8]) -> Result<(), Refused>
    requires { IsTowerOf tower.now.base tower.now.uppers tower.now.client }
{
    let alloc = rt.alloc();
    match lay(alloc, tower)? {
        Ok(kernel) => ask_kernel(rt, kernel, questions),
        Err(LevelFault::Breach(breach)) => Err(refuse_levels(alloc, &breach)),
        Err(LevelFault::NoMemory) => Err(Refused::Fault(TowerFault::NoMemory)),
    }
}

/// Lays out the tower whose images these files have, and prints what its kernel answers to each question.
pub fn ask_files(rt: &HostRuntime, files: &Files<'_>, questions: &[u8]) -> Result<(), Refused> {
    let tower = read_tower(rt, files)?;
    conform(rt.alloc(), files, &tower)?;
    ask_laid(rt, &tower, questions)
}
