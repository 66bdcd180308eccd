//! The state of a task: frames, codes, cells of class objects, serials of its objects, and units granted.

use crate::Frames;
use som_code_cache::Codes;
use som_model::List;
use som_objects::Cell;

/// The state of a task, which the Task of `som_exec` holds: its frames, the codes of the bodies that it ran, the variables
/// of class objects by class numbers, where one was ever written, the serials of its objects in the order in which it made
/// them, the units granted, and whether it was ever gone on with.
pub struct Task {
    pub frames: Frames,
    pub codes: Codes,
    pub statics: Vec<Option<List<Cell>>>,
    pub serials: List<u32>,
    pub granted: u32,
    pub begun: bool,
}

impl Drop for Task {
    fn drop(self) {
        let Task {
            frames,
            codes,
            statics,
            serials,
            granted: _,
            begun: _,
        } = self;
        drop(frames);
        drop(codes);
        drop(statics);
        drop(serials);
    }
}
