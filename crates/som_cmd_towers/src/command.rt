//! The type of what words ask for of towers.

use som_model::Text;

/// A command on towers of libraries, with the names that the words lend. The libraries below go from the lowest up.
#[derive(Clone, Copy)]
pub enum TowerCommand<'a> {
    Make {
        out: &'a Text,
        below: &'a [Text],
        files: &'a [Text],
    },
    Check {
        old: &'a Text,
        new: &'a Text,
    },
    Run {
        client: &'a Text,
        below: &'a [Text],
        fuel: u32,
    },
}
