//! Writes a line to a sink piece by piece, until the sink has taken all of it or fails.

ghost use Rattle.som_io.specs.Line.{SendHasCause, SendsLine};
ghost use Rattle.som_io.specs.declared.line.Sending.TheVariants as sending;
ghost use Rattle.std.specs.Prelude.{◌≡◌, ◌≢◌, ◌≤◌};

use crate::sink::{Sent, Sink};

/// What became of a line.
#[derive(Clone, Copy, PartialEq, Eq)]
pub enum Sending {
    Whole,
    Failed,
    NoMemory,
}

/// Writes a line, and goes on with the rest where a sink took less.
pub fn send<K: Sink>(out: &mut K, line: &[u8]) -> Sending
    ensures text { SendsLine (K.written out.old) (K.written out.new) line.now result }

    ensures later { K.faults out.old ≤ K.faults out.new }
    ensures cause { SendHasCause (K.faults out.old) (K.faults out.new) result }

    ensures calm_stays { K.calm out.old → K.calm out.new }
    ensures calm_count { K.calm out.old → K.faults out.new ≡ K.faults out.old }
    ensures calm_answer { K.calm out.old → result ≢ sending.Failed }
{
    let mut rest = line;
    while !rest.is_empty() {
        match out.write(rest) {
            Sent::Bytes(count) => rest = &rest[count..],
            Sent::Failed => return Sending::Failed,
            Sent::NoMemory => return Sending::NoMemory,
        }
    }
    Sending::Whole
}
