//! The lines that tell the ends of clients.

ghost use Rattle.som_cmd_tasks.specs.Ends.{IsOutputOf, end_told, lines_from, word_told};
ghost use Rattle.som_io.specs.Outside.{Rose, ShowsAll, ShowsFront};
ghost use Rattle.std.specs.List.{concat};
ghost use Rattle.std.specs.Prelude.{◌≡◌, ◌≢◌, IfOk};

use som_cmd_steps::{CommandStop, End, Output, tell};
use som_exec::Advanced;
use som_io::Sink;
use som_model::{List, NoMemory, Text};
use som_show::add_number;
use std::alloc::Global;

// An end in a word. An advance that told its lines whole comes to no other end.
fn word_of(end: &Advanced) -> &'static [u8]
    ensures { result.now ≡ word_told end.now }
{
    match end {
        Advanced::Going => b"going",
        Advanced::Done => b"done",
        Advanced::SourceFault { .. } => b"fault",
        Advanced::SinkFailed | Advanced::NoMemory => b"",
    }
}

// The line that tells the end of the client of a number.
fn end_line(alloc: Global, number: usize, end: &Advanced) -> Result<Text, NoMemory>
    ensures { IfOk result (λ line. line ≡ end_told number end.now) }
{
    let mut line = Vec::new(alloc);
    line.extend_from_slice(b"client ")?;
    add_number(&mut line, number as u64)?;
    line.push(b' ')?;
    line.extend_from_slice(word_of(end))?;
    line.push(b'\n')?;
    Ok(Text::from_vec(line))
}

// The lines that tell the ends of clients, in their order.
fn end_lines(alloc: Global, ends: &[Advanced]) -> Result<List<Text>, NoMemory>
    ensures { IfOk result (λ lines. lines ≡ lines_from 0 ends.now) }
{
    let mut lines = List::new(alloc);
    for (number, end) in ends.iter().enumerate() {
        lines.push(end_line(alloc, number, end)?)?;
    }
    Ok(lines)
}

// What tells the ends of clients.
fn ends_output(alloc: Global, ends: &[Advanced]) -> Result<Output, CommandStop>
    ensures { IsOutputOf (lines_from 0 ends.now) result }
{
    let lines = end_lines(alloc, ends)?;
    Ok(Output {
        lines,
        end: End::Done,
    })
}

/// Tells the ends of clients, each by a line, and answers 0; or 8 where the sink failed, or 10 for want of memory.
pub(crate) fn tell_ends<K: Sink>(alloc: Global, ends: &[Advanced], out: &mut K) -> u8
    ensures all { result ≢ 8 → result ≢ 10 → ShowsAll (K.written out.old) (K.written out.new) (concat (lines_from 0 ends.now)) }
    ensures status { result ≢ 8 → result ≢ 10 → result ≡ 0 }
    ensures cause { result ≡ 8 → Rose (K.faults out.old) (K.faults out.new) }
    ensures front { ShowsFront (K.written out.old) (K.written out.new) (concat (lines_from 0 ends.now)) }
    ensures calm { K.calm out.old → result ≢ 8 }
{
    tell(out, &ends_output(alloc, ends))
}
