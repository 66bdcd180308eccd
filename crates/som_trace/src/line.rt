//! Lines written to a sink in few writes, and why a line wasn't told whole.

ghost use Rattle.som_io.specs.Outside.{Rose, Shows, ShowsAll, ShowsFront};
ghost use Rattle.som_trace.specs.Pieces.{AreParts, part_pieces};
ghost use Rattle.som_trace.specs.Told.{bytes_of};
ghost use Rattle.som_trace.specs.declared.line.TheConstants.{MAX_WAITING};
ghost use Rattle.som_trace.specs.declared.line.Untold.TheVariants as untold;
ghost use Rattle.std.specs.List.{concat, flat_map};
ghost use Rattle.std.specs.Prelude.{◌≡◌, ◌≢◌, ◌≤◌, ◌++◌, Err, OnOk, length};

use crate::key_view::ClassKeys;
use crate::pieces::{Part, last_first, next_piece};
use som_io::{Sending, Sink, send};
use som_model::NoMemory;
use std::alloc::{AllocError, Global};

/// Why a line wasn't told whole.
#[derive(Clone, Copy, PartialEq, Eq)]
pub enum Untold {
    SinkFailed,
    NoMemory,
}

impl From<NoMemory> for Untold {
    ghost use Rattle.som_trace.specs.declared.line.Untold.TheVariants as untold;
    ghost use Rattle.std.specs.Prelude.{◌≡◌};

    ghost from_gives = { λ _ e. e ≡ untold.NoMemory };

    fn from(_e: NoMemory) -> Untold {
        Untold::NoMemory
    }
}

impl From<AllocError> for Untold {
    ghost use Rattle.som_trace.specs.declared.line.Untold.TheVariants as untold;
    ghost use Rattle.std.specs.Prelude.{◌≡◌};

    ghost from_gives = { λ _ e. e ≡ untold.NoMemory };

    fn from(_e: AllocError) -> Untold {
        Untold::NoMemory
    }
}

/// So many bytes of a line wait at most. A line that has no more is written in one piece.
const MAX_WAITING: usize = 327_680;

/// Writes bytes at once.
pub(crate) fn send_all<K: Sink>(out: &mut K, bytes: &[u8]) -> Result<(), Untold>
    ensures ok { OnOk result (ShowsAll (K.written out.old) (K.written out.new) bytes.now) }
    ensures front { ShowsFront (K.written out.old) (K.written out.new) bytes.now }

    ensures later { K.faults out.old ≤ K.faults out.new }
    ensures cause { result ≡ Err untold.SinkFailed → Rose (K.faults out.old) (K.faults out.new) }

    ensures calm_stays { K.calm out.old → K.calm out.new }
    ensures calm_count { K.calm out.old → K.faults out.new ≡ K.faults out.old }
    ensures calm_answer { K.calm out.old → result ≢ Err untold.SinkFailed }
{
    match send(out, bytes) {
        Sending::Whole => Ok(()),
        Sending::Failed => Err(Untold::SinkFailed),
        Sending::NoMemory => Err(Untold::NoMemory),
    }
}

/// Lets a piece wait with what waits already; where that would be too much, both are written.
pub(crate) fn add<K: Sink>(out: &mut K, waiting: &mut Vec<u8>, piece: &[u8]) -> Result<(), Untold>
    ensures ok { OnOk result (Shows (K.written out.old) (K.written out.new) (waiting.old.items ++ piece.now) waiting.new.items) }
    ensures front { ShowsFront (K.written out.old) (K.written out.new) (waiting.old.items ++ piece.now) }
    ensures few { length waiting.old.items ≤ MAX_WAITING → length waiting.new.items ≤ MAX_WAITING }

    ensures later { K.faults out.old ≤ K.faults out.new }
    ensures cause { result ≡ Err untold.SinkFailed → Rose (K.faults out.old) (K.faults out.new) }

    ensures calm_stays { K.calm out.old → K.calm out.new }
    ensures calm_count { K.calm out.old → K.faults out.new ≡ K.faults out.old }
    ensures calm_answer { K.calm out.old → result ≢ Err untold.SinkFailed }
{
    if piece.len() <= MAX_WAITING.saturating_sub(waiting.len()) {
        waiting.extend_from_slice(piece)?;
        return Ok(());
    }
    send_all(out, waiting.as_slice())?;
    waiting.clear();
    send_all(out, piece)
}

/// Writes pieces as one line.
pub(crate) fn send_pieces<K: Sink>(
    alloc: Global,
    out: &mut K,
    pieces: &[&[u8]],
) -> Result<(), Untold>
    ensures ok { OnOk result (ShowsAll (K.written out.old) (K.written out.new) (concat (bytes_of pieces.now))) }
    ensures front { ShowsFront (K.written out.old) (K.written out.new) (concat (bytes_of pieces.now)) }

    ensures later { K.faults out.old ≤ K.faults out.new }
    ensures cause { result ≡ Err untold.SinkFailed → Rose (K.faults out.old) (K.faults out.new) }

    ensures calm_stays { K.calm out.old → K.calm out.new }
    ensures calm_count { K.calm out.old → K.faults out.new ≡ K.faults out.old }
    ensures calm_answer { K.calm out.old → result ≢ Err untold.SinkFailed }
{
    let mut waiting = Vec::new(alloc);
    for piece in pieces {
        add(out, &mut waiting, piece)?;
    }
    send_all(out, waiting.as_slice())
}

/// Writes parts as one line, of which no more than a piece is in memory.
pub(crate) fn send_parts<'a, N: ClassKeys, K: Sink>(
    alloc: Global,
    out: &mut K,
    classes: &'a N,
    parts: &[Part<'a>],
) -> Result<(), Untold>
    requires { AreParts (N.known classes.now) parts.now }
    ensures ok { OnOk result (ShowsAll (K.written out.old) (K.written out.new) (concat (flat_map (part_pieces (N.known classes.now)) parts.now))) }
    ensures front { ShowsFront (K.written out.old) (K.written out.new) (concat (flat_map (part_pieces (N.known classes.now)) parts.now)) }

    ensures later { K.faults out.old ≤ K.faults out.new }
    ensures cause { result ≡ Err untold.SinkFailed → Rose (K.faults out.old) (K.faults out.new) }

    ensures calm_stays { K.calm out.old → K.calm out.new }
    ensures calm_count { K.calm out.old → K.faults out.new ≡ K.faults out.old }
    ensures calm_answer { K.calm out.old → result ≢ Err untold.SinkFailed }
{
    let mut left = last_first(alloc, parts)?;
    let mut waiting = Vec::new(alloc);
    while let Some(piece) = next_piece(&mut left, classes)? {
        add(out, &mut waiting, piece)?;
    }
    send_all(out, waiting.as_slice())
}
