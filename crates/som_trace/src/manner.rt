//! How a body was reached, with the word that a trace has for it.

ghost use Rattle.som_semantics.specs.RunText.{way_name};
ghost use Rattle.som_trace.specs.Events.{manner_of};
ghost use Rattle.std.specs.Prelude.{◌≡◌};

/// How a body was reached.
#[derive(Clone, Copy, PartialEq, Eq)]
pub enum Manner {
    Offset,
    Lookup,
    Dispatch,
    Parent,
    Before,
    After,
    Forward,
}

/// The word that a trace has for the manner.
pub(crate) fn word_of<'a>(manner: Manner) -> &'a [u8]
    ensures { result.now ≡ way_name (manner_of manner) }
{
    match manner {
        Manner::Offset => b"offset",
        Manner::Lookup => b"lookup",
        Manner::Dispatch => b"dispatch",
        Manner::Parent => b"parent",
        Manner::Before => b"before",
        Manner::After => b"after",
        Manner::Forward => b"forward",
    }
}
