//! The type of a tower that was read: the levels of libraries, and the client above them.

use som_cmd_levels::LevelsBelow;
use som_towerimage::Level;

/// The levels of a tower, from the lowest up, and the client above them.
pub struct Tower {
    pub levels: LevelsBelow,
    pub client: Level,
}

impl Drop for Tower {
    fn drop(self) {
        let Tower { levels, client } = self;
        drop(client);
        drop(levels);
    }
}
