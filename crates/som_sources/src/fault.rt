//! The errors of a compilation: a file that can't be read, a broken rule or a passed limit.

use som_model::{NoMemory, Text};
use som_verify_classes::Broken;

/// Why a text can't be read: its bytes are no tokens, or its tokens are no text of the grammar.
#[derive(Clone, Copy, PartialEq, Eq)]
pub enum ReadingFault {
    BadByte,
    OpenText,
    OpenComment,
    NumberTooLarge,
    Syntax,
    NotInProfile,
}

/// What is wrong with texts: the text of this name can't be read from the byte at this place on, they break a rule, or they
/// pass a limit.
#[derive(Drop)]
pub enum TextFault {
    Unread {
        fault: ReadingFault,
        name: Text,
        place: usize,
    },
    Rule(Broken),
    Limit {
        quantity: Text,
        number: u32,
    },
}

/// Why texts aren't compiled: something is wrong with them, or memory ran out, which says nothing of them.
#[derive(Drop)]
pub enum CompileFault {
    Text(TextFault),
    NoMemory,
}

impl From<NoMemory> for CompileFault {
    ghost use Rattle.std.specs.Prelude.{◌≡◌};
    ghost use Rattle.som_sources.specs.declared.fault.CompileFault.TheVariants as faults;

    ghost from_gives = { λ _ e. e ≡ faults.NoMemory };

    fn from(_e: NoMemory) -> CompileFault {
        CompileFault::NoMemory
    }
}
