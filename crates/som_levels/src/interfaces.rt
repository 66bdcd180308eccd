//! The interfaces of the levels below a program, which name classes by levels.

ghost use Rattle.som_level_programs.specs.ByLevels.{level_change, levels_below as levels_of};
ghost use Rattle.som_rekey_laws.specs.Rekeying.{rekey_face as new_face};
ghost use Rattle.std.specs.Prelude.{◌≡◌, ◌+◌, ◌≤◌, IfOk, drop, length, map, take};

use crate::LevelModules;
use som_model::{ClassFace, Interface, List, NoMemory};
use som_rekey::rekey_face;
use std::alloc::Global;

// The faces of one level by levels.
fn faces_by_level(
    alloc: Global,
    modules: &LevelModules,
    faces: &[ClassFace],
) -> Result<List<ClassFace>, NoMemory>
    ensures { IfOk result (λ copies. copies ≡ map (new_face (level_change modules.now.sizes modules.now.client modules.now.base)) faces.now) }
{
    let mut copies = List::new(alloc);
    for face in faces {
        copies.push(rekey_face(alloc, modules, face)?)?;
    }
    Ok(copies)
}

/// So many faces from a place on.
pub(crate) fn part(faces: &[ClassFace], place: usize, size: usize) -> &[ClassFace]
    requires { place + size ≤ length faces.now }
    ensures { result.now ≡ take size (drop place faces.now) }
{
    &faces[place..place + size]
}

/// The interfaces of the levels below, the lowest first, with their classes named by levels.
pub fn levels_below(alloc: Global, modules: &LevelModules) -> Result<List<Interface>, NoMemory>
    ensures { IfOk result (λ levels. levels ≡ levels_of modules.now.sizes modules.now.client modules.now.base) }
{
    let faces = modules.base().classes.as_slice();
    let mut levels = List::new(alloc);
    let mut place = 0;
    for size in modules.sizes().as_slice() {
        let size = usize::from(*size);
        levels.push(Interface {
            classes: faces_by_level(alloc, modules, part(faces, place, size))?,
        })?;
        place += size;
    }
    Ok(levels)
}
