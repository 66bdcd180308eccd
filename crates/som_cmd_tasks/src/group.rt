//! The client programs that take turns, with the release on which they run.

use som_model::{ClientProgram, List, Release};

/// The release of a library, and the client programs that run on it, in their order.
pub struct Group {
    pub release: Release,
    pub programs: List<ClientProgram>,
}

impl Drop for Group {
    fn drop(self) {
        let Group { release, programs } = self;
        drop(programs);
        drop(release);
    }
}
