//! The type of what a command prints and how it ends where no step refuses, and the status of each end.

use som_model::{List, Text};

/// How a command ends that no step refuses.
#[derive(Clone, Copy, PartialEq, Eq)]
pub enum End {
    Done,
    /// A run whose fuel was spent.
    Spent,
}

impl End {
    ghost use Rattle.som_cmd_steps.specs.Status.{end_status};
    ghost use Rattle.std.specs.Prelude.{◌≡◌};

    /// The status of the program.
    pub fn status(self) -> u8
        ensures { result ≡ end_status self }
    {
        match self {
            End::Done => 0,
            End::Spent => 9,
        }
    }
}

/// What a command prints that no step refuses: its lines, each with the byte that ends it.
#[derive(Drop)]
pub struct Output {
    pub lines: List<Text>,
    pub end: End,
}
