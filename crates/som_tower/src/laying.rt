//! A tower laid out: its levels are built from the library up, the client is put on top, and a kernel is made of all.

ghost use Rattle.som_class_kernel.specs.Linked.{IsMadeIn};
ghost use Rattle.som_compat_levels.specs.Conditions.{AreLoadableLevels};
ghost use Rattle.som_classmgr.specs.Reached.{IsMadeBy};
ghost use Rattle.som_level_programs.specs.ByLevels.{levels_below as levels_of, main_by_level as main_of};
ghost use Rattle.som_level_laws.specs.Levels.{first_level_break};
ghost use Rattle.som_model.specs.Kernel.{kernel as kernel_classes};
ghost use Rattle.som_tower.specs.Standing.{AreBuilt};
ghost use Rattle.som_tower.specs.Towers.{AreLibraries, IsTowerOf, TellsTower, interfaces_of, plain, programs_above, tower_break, tower_classes};
ghost use Rattle.std.specs.Prelude.{◌≡◌, ◌↔◌, ◌<◌, ◌++◌, ◌∷◌, [], ℕ, IfOk, None, map};
ghost use Rattle.som_model.specs.Class.{interface_of};

use crate::building::{Built, compare, ground, stand};
use som_classmgr::{Kernel, Linked, Unlinked};
use som_compat_levels::LevelFault;
use som_levels::{LevelModules, main_by_level, note_own};
use som_model::{Interface, List, Release};
use som_towerimage::Level;
use std::alloc::Global;

/// Lays out a library, the libraries above it, and a client on top of all: each of these is compared with the levels below it, from the
/// lowest up, the client last, and where one isn't kept the first breach is answered, with the level of its class; else a kernel is made of the
/// classes of all levels, each keyed by its level, and of the client's classes and main.
pub fn lay_tower(
    kernel: Kernel<Unlinked>,
    alloc: Global,
    base: &Release,
    uppers: &List<Level>,
    client: &Level,
) -> Result<Kernel<Linked>, LevelFault>
    requires { IsTowerOf base.now uppers.now client.now }
    ensures tells { TellsTower (tower_break (interface_of base.now ∷ []) (programs_above uppers.now client.now)) result }
    ensures classes { IfOk result (λ k. k.classes.classes ≡ kernel_classes ++ tower_classes base.now uppers.now client.now) }
    ensures main { IfOk result (λ k. k.main ≡ main_of client.now.sizes client.now.client client.now.program) }
    ensures made { IfOk result (λ k. (n : ℕ) → IsMadeIn k n ↔ (n < 4)) }
    ensures all { IfOk result (IsMadeBy [] []) }
{
    let built = build(alloc, base, uppers)?;
    lay_client(kernel, alloc, base, uppers, client, built)
}

/// The interfaces of a library and of the libraries above it, the lowest first, where each of these keeps what those above it were compiled
/// against; else the first breach is answered, with the level of its class.
pub fn standing_levels(
    alloc: Global,
    base: &Release,
    uppers: &List<Level>,
) -> Result<List<Interface>, LevelFault>
    requires { AreLibraries base.now uppers.now }
    ensures tells { TellsTower (tower_break (interface_of base.now ∷ []) (map plain uppers.now)) result }
    ensures interfaces { IfOk result (λ is. is ≡ interfaces_of base.now uppers.now) }
    ensures loadable { IfOk result AreLoadableLevels }
{
    let built = build(alloc, base, uppers)?;
    let Built {
        interfaces,
        classes,
    } = built;
    drop(classes);
    Ok(interfaces)
}

// The levels of a tower, if each is kept by those below it.
fn build(alloc: Global, base: &Release, uppers: &List<Level>) -> Result<Built, LevelFault>
    requires { AreLibraries base.now uppers.now }
    ensures tells { TellsTower (tower_break (interface_of base.now ∷ []) (map plain uppers.now)) result }
    ensures built { IfOk result (λ b. AreBuilt base.now uppers.now b.interfaces b.classes) }
{
    let mut built = ground(alloc, base)?;
    for level in uppers.as_slice() {
        stand(alloc, level, &mut built)?;
    }
    Ok(built)
}

// The kernel of levels that were built and of a client above them, if they keep what it was compiled against.
fn lay_client(
    kernel: Kernel<Unlinked>,
    alloc: Global,
    base: &Release,
    uppers: &List<Level>,
    client: &Level,
    built: Built,
) -> Result<Kernel<Linked>, LevelFault>
    requires tower { IsTowerOf base.now uppers.now client.now }
    requires built { AreBuilt base.now uppers.now built.interfaces built.classes }
    ensures tells { TellsTower (first_level_break (levels_of client.now.sizes client.now.client client.now.program.base) (interfaces_of base.now uppers.now)) result }
    ensures classes { IfOk result (λ k. k.classes.classes ≡ kernel_classes ++ tower_classes base.now uppers.now client.now) }
    ensures main { IfOk result (λ k. k.main ≡ main_of client.now.sizes client.now.client client.now.program) }
    ensures made { IfOk result (λ k. (n : ℕ) → IsMadeIn k n ↔ (n < 4)) }
    ensures all { IfOk result (IsMadeBy [] []) }
{
    let Built {
        interfaces,
        classes,
    } = built;
    let modules = LevelModules::new(alloc, &client.sizes, client.client, &client.program.base)?;
    compare(alloc, &modules, &interfaces)?;
    let mut classes = classes;
    note_own(alloc, &modules, &client.program, &mut classes)?;
    let main = main_by_level(alloc, &modules, &client.program)?;
    Ok(kernel.lay_owned(alloc, classes, main)?)
}
