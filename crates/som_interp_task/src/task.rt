//! A task as its user holds it: live or not, with the units granted so far.

ghost use Rattle.std.specs.Prelude.{◌≡◌};

use som_model::List;

/// A task as its user holds it, around the state that is the Task of `som_interp_state`. It can be gone on with as long as it is
/// live.
#[derive(Drop)]
pub struct Task {
    pub task: som_interp_state::Task,
    pub live: bool,
}

impl Task {
    /// Whether it can be gone on with.
    pub fn live(&self) -> bool
        ensures { result ≡ self.now.live }
    {
        self.live
    }

    /// How many units were granted.
    pub fn granted(&self) -> u32
        ensures { result ≡ self.now.task.granted }
    {
        self.task.granted
    }

    /// Whether it was ever gone on with.
    pub fn begun(&self) -> bool
        ensures { result ≡ self.now.task.begun }
    {
        self.task.begun
    }

    /// The serials of the objects that it made, in order.
    pub fn serials(&self) -> &List<u32>
        ensures { result.now ≡ self.now.task.serials }
    {
        &self.task.serials
    }
}
