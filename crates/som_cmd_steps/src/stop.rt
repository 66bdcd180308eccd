//! The types of what stops a command: a refusal with its line, a fault of the store, want of memory.

ghost use Rattle.som_cmd_steps.specs.declared.stop.CommandStop.TheVariants as stops;
ghost use Rattle.std.specs.Prelude.{◌≡◌};

use som_model::{NoMemory, Text};

/// Why a step refuses.
#[derive(Clone, Copy, PartialEq, Eq)]
pub enum Why {
    /// Texts can't be read, or break a rule.
    Texts,
    Incompatible,
    Image,
    Absent,
    /// Texts pass a limit.
    Limit,
}

impl Why {
    ghost use Rattle.som_cmd_steps.specs.Status.{status_of};

    /// The status of the program.
    pub fn status(self) -> u8
        ensures { result ≡ status_of self }
    {
        match self {
            Why::Texts => 3,
            Why::Incompatible => 4,
            Why::Image => 5,
            Why::Absent => 7,
            Why::Limit => 11,
        }
    }
}

/// A step that refuses: the line to print, and why.
#[derive(Drop)]
pub struct Refusal {
    pub line: Text,
    pub why: Why,
}

/// Why a command goes no further.
#[derive(Drop)]
pub enum CommandStop {
    /// A step refuses.
    Refused(Refusal),
    /// A call on the store failed, with the line to print.
    StoreFailed(Text),
    NoMemory,
}

impl From<NoMemory> for CommandStop {
    ghost from_gives = { λ _ e. e ≡ stops.NoMemory };

    fn from(_e: NoMemory) -> CommandStop {
        CommandStop::NoMemory
    }
}
