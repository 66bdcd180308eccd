//! Whether levels are those that a program was compiled against.

ghost use Rattle.som_level_programs.specs.ByLevels.{level_change, levels_below as levels_of};
ghost use Rattle.som_rekey_laws.specs.Rekeying.{rekey_face as new_face};
ghost use Rattle.std.specs.Prelude.{◌≡◌, IsTrue, map};

use crate::LevelModules;
use crate::interfaces::part;
use som_model::{ClassFace, Interface, List};
use som_rekey::is_new_face;

// Whether some faces are others by levels.
fn are_by_level(modules: &LevelModules, faces: &[ClassFace], others: &[ClassFace]) -> bool
    ensures { IsTrue result → others.now ≡ map (new_face (level_change modules.now.sizes modules.now.client modules.now.base)) faces.now }
{
    if faces.len() != others.len() {
        return false;
    }
    for (i, face) in faces.iter().enumerate() {
        if !is_new_face(modules, face, &others[i]) {
            return false;
        }
    }
    true
}

/// Whether some levels are the interfaces of the levels below, by levels. It says no more of levels that it answers false for.
pub fn are_levels_below(modules: &LevelModules, levels: &List<Interface>) -> bool
    ensures { IsTrue result → levels_of modules.now.sizes modules.now.client modules.now.base ≡ levels.now }
{
    let sizes = modules.sizes().as_slice();
    if sizes.len() != levels.len() {
        return false;
    }
    let faces = modules.base().classes.as_slice();
    let others = levels.as_slice();
    let mut place = 0;
    for (i, size) in sizes.iter().enumerate() {
        let size = usize::from(*size);
        if !are_by_level(
            modules,
            part(faces, place, size),
            others[i].classes.as_slice(),
        ) {
            return false;
        }
        place += size;
    }
    true
}
