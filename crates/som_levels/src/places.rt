//! At which level a place of a flat base stands.

ghost use Rattle.som_levels.specs.Places.{level_at as level_of_place};
ghost use Rattle.som_level_laws.specs.Levels.{level_module as module_of_level};
ghost use Rattle.std.specs.Prelude.{◌≡◌, ◌<◌, ◌≤◌, length};

use som_model::Module;

/// The level at which a place stands, counted from the lowest, where levels of these sizes stand one after the other.
pub(crate) fn level_at(sizes: &[u16], place: usize) -> usize
    ensures is { result ≡ level_of_place sizes.now place }
    ensures few { result ≤ length sizes.now }
{
    let mut left = place;
    for (level, size) in sizes.iter().enumerate() {
        let size = usize::from(*size);
        if left < size {
            return level;
        }
        left -= size;
    }
    sizes.len()
}

/// The module of a level.
pub(crate) fn level_module(level: usize) -> Module
    requires { level < 256 }
    ensures { result ≡ module_of_level level }
{
    if level == 0 {
        Module::Library
    } else {
        Module::Upper(level as u8)
    }
}
