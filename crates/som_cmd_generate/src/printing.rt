//! Writes the lines of `generate` that end with a number.

ghost use Rattle.som_cmd_generate.specs.GenerateAnswer.{left_line, numbered_line};
ghost use Rattle.som_cmd_generate.specs.Printing.{Prints, sent_status};
ghost use Rattle.som_io.specs.Line.{SendHasCause, SendsLine};
ghost use Rattle.som_io.specs.declared.line.Sending.TheVariants as sending;
ghost use Rattle.std.specs.Prelude.{IfOk, ◌≡◌, ◌≢◌, ◌≤◌};

use som_io::{Sending, Sink, send};
use som_model::{NoMemory, Text};
use som_show::add_number;
use std::alloc::Global;

// A line of a fixed front and a number.
fn numbered_line(alloc: Global, front: &[u8], number: u32) -> Result<Text, NoMemory>
    ensures { IfOk result (λ line. line ≡ numbered_line front.now number) }
{
    let mut line = Vec::new(alloc);
    line.extend_from_slice(front)?;
    add_number(&mut line, u64::from(number))?;
    line.push(b'\n')?;
    Ok(Text::from_vec(line))
}

/// Writes a line of a fixed front and a number.
pub fn print_number<K: Sink>(alloc: Global, front: &[u8], number: u32, out: &mut K) -> Sending
    ensures text { SendsLine (K.written out.old) (K.written out.new) (numbered_line front.now number) result }
    ensures later { K.faults out.old ≤ K.faults out.new }
    ensures cause { SendHasCause (K.faults out.old) (K.faults out.new) result }
    ensures calm_stays { K.calm out.old → K.calm out.new }
    ensures calm_answer { K.calm out.old → result ≢ sending.Failed }
{
    match numbered_line(alloc, front, number) {
        Ok(line) => send(out, line.as_slice()),
        Err(NoMemory) => Sending::NoMemory,
    }
}

// The status after a line that was the last one.
fn status_of(sent: Sending) -> u8
    ensures { result ≡ sent_status sent }
{
    match sent {
        Sending::Whole => 0,
        Sending::Failed => 8,
        Sending::NoMemory => 10,
    }
}

/// Writes how many units are left, and answers the status.
#[tactic(auto, using(crate::proofs::PrintLaws::line_prints, crate::proofs::PrintLaws::line_calm))]
pub fn print_left<K: Sink>(alloc: Global, left: u32, out: &mut K) -> u8
    ensures prints { Prints (left_line left) 0 (K.faults out.old) (K.faults out.new) (K.written out.old) (K.written out.new) result }
    ensures calm { K.calm out.old → result ≢ 8 }
{
    status_of(print_number(alloc, b"fuel left ", left, out))
}
