//! Writes the lines that a command came to, and answers its status.

ghost use Rattle.som_io.specs.Outside.{Rose, ShowsAll, ShowsFront};
ghost use Rattle.som_cmd_steps.specs.Cause.{IsQuiet, IsQuietStop};
ghost use Rattle.som_cmd_steps.specs.Putting.{nothing};
ghost use Rattle.som_cmd_steps.specs.Saying.{SaysAll, SaysFailure, SaysFront, StopSaysAll, StopSaysFailure, StopSaysFront};
ghost use Rattle.som_cmd_steps.specs.Status.{is_calm_status};
ghost use Rattle.std.specs.List.{concat};
ghost use Rattle.std.specs.Prelude.{IsTrue, Ok, [], ◌≡◌, ◌≢◌, ◌≤◌, ◌⊎◌};

use crate::output::Output;
use crate::stop::CommandStop;
use som_io::{Sending, Sink, send};
use som_model::Text;

/// Writes one line, and answers the status that goes with it, or that of the sink's failure or of want of memory.
pub fn say<K: Sink>(out: &mut K, line: &Text, status: u8) -> u8
    requires sink { status ≢ 8 }
    requires memory { status ≢ 10 }
    ensures all { result ≢ 8 → result ≢ 10 → ShowsAll (K.written out.old) (K.written out.new) line.now }
    ensures status { result ≢ 8 → result ≢ 10 → result ≡ status }
    ensures sink_failed { result ≡ 8 → Rose (K.faults out.old) (K.faults out.new) }
    ensures front { ShowsFront (K.written out.old) (K.written out.new) line.now }
    ensures calm { K.calm out.old → (result ≡ status) ⊎ (result ≡ 10) }
{
    match send(out, line.as_slice()) {
        Sending::Whole => status,
        Sending::Failed => 8,
        Sending::NoMemory => 10,
    }
}

/// Writes lines, each once those before it are written, and answers the status that goes with them, or that of the sink's
/// failure or of want of memory.
pub fn say_lines<K: Sink>(out: &mut K, lines: &[Text], status: u8) -> u8
    requires sink { status ≢ 8 }
    requires memory { status ≢ 10 }
    ensures all { result ≢ 8 → result ≢ 10 → ShowsAll (K.written out.old) (K.written out.new) (concat lines.now) }
    ensures status { result ≢ 8 → result ≢ 10 → result ≡ status }
    ensures sink_failed { result ≡ 8 → Rose (K.faults out.old) (K.faults out.new) }
    ensures front { ShowsFront (K.written out.old) (K.written out.new) (concat lines.now) }
    ensures nothing { lines.now ≡ [] → result ≡ status }
    ensures later { K.faults out.old ≤ K.faults out.new }
    ensures calm { K.calm out.old → (result ≡ status) ⊎ (result ≡ 10) }
    ensures calm_stays { K.calm out.old → K.calm out.new }
{
    for line in lines {
        match send(out, line.as_slice()) {
            Sending::Whole => {}
            Sending::Failed => return 8,
            Sending::NoMemory => return 10,
        }
    }
    status
}

/// Writes the line of a command that goes no further, and answers the status.
pub fn refuse<K: Sink>(out: &mut K, stop: &CommandStop) -> u8
    ensures all { result ≢ 6 → result ≢ 8 → result ≢ 10 → StopSaysAll stop.now result (K.written out.old) (K.written out.new) }
    ensures store_failed { result ≡ 6 → StopSaysFailure stop.now (K.written out.old) (K.written out.new) }
    ensures sink_failed { result ≡ 8 → Rose (K.faults out.old) (K.faults out.new) }
    ensures front { StopSaysFront stop.now (K.written out.old) (K.written out.new) }
    ensures words { result ≢ 2 }
    ensures calm { K.calm out.old → IsQuietStop stop.now → IsTrue (is_calm_status result) }
{
    match stop {
        CommandStop::Refused(refusal) => say(out, &refusal.line, refusal.why.status()),
        CommandStop::StoreFailed(line) => say(out, line, 6),
        CommandStop::NoMemory => 10,
    }
}

/// Writes what a command came to whose answer was made before any of it is printed, and answers the status.
pub fn tell<K: Sink>(out: &mut K, outcome: &Result<Output, CommandStop>) -> u8
    ensures all { result ≢ 6 → result ≢ 8 → result ≢ 10 → SaysAll outcome.now result (K.written out.old) (K.written out.new) }
    ensures store_failed { result ≡ 6 → SaysFailure outcome.now (K.written out.old) (K.written out.new) }
    ensures sink_failed { result ≡ 8 → Rose (K.faults out.old) (K.faults out.new) }
    ensures front { SaysFront outcome.now (K.written out.old) (K.written out.new) }
    ensures nothing { outcome.now ≡ Ok nothing → result ≡ 0 }
    ensures words { result ≢ 2 }
    ensures calm { K.calm out.old → IsQuiet outcome.now → IsTrue (is_calm_status result) }
{
    match outcome {
        Ok(output) => say_lines(out, output.lines.as_slice(), output.end.status()),
        Err(stop) => refuse(out, stop),
    }
}
