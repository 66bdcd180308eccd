//! The lines of a run: printed texts, call events, and the fault at the end.

ghost use Rattle.som_io.specs.Outside.{Rose, ShowsAll, ShowsFront};
ghost use Rattle.som_semantics.specs.Runs.{Faulted};
ghost use Rattle.som_semantics.specs.RunText.{fault_name};
ghost use Rattle.som_semantics.specs.State.{Place, Printed};
ghost use Rattle.som_trace.specs.Events.{IsCall, call_event};
ghost use Rattle.som_trace.specs.Filters.{shows_of};
ghost use Rattle.som_trace.specs.Places.{running_in};
ghost use Rattle.som_trace.specs.Told.{end_text, event_text};
ghost use Rattle.som_trace.specs.declared.line.Untold.TheVariants as untold;
ghost use Rattle.std.specs.Prelude.{◌≡◌, ◌≢◌, ◌≤◌, Bool, Err, List, OnErr, OnOk, ℕ};

use crate::call::Call;
use crate::filter::TraceFilter;
use crate::key_view::ClassKeys;
use crate::line::{Untold, send_parts, send_pieces};
use crate::manner::word_of;
use crate::pieces::Part;
use crate::running::Running;
use crate::shown::is_shown;
use som_io::Sink;
use som_model::{Fault, Text};
use std::alloc::Global;

/// Writes the line of a text that is printed.
pub fn tell_printed<K: Sink>(
    alloc: Global,
    out: &mut K,
    prefix: &Text,
    text: &Text,
) -> Result<(), Untold>
    ensures ok { OnOk result ((shows : List ℕ → Bool) → ShowsAll (K.written out.old) (K.written out.new) (event_text shows prefix.now (Printed text.now))) }
    ensures front { (shows : List ℕ → Bool) → ShowsFront (K.written out.old) (K.written out.new) (event_text shows prefix.now (Printed text.now)) }

    ensures later { K.faults out.old ≤ K.faults out.new }
    ensures cause { result ≡ Err untold.SinkFailed → Rose (K.faults out.old) (K.faults out.new) }

    ensures calm_stays { K.calm out.old → K.calm out.new }
    ensures calm_count { K.calm out.old → K.faults out.new ≡ K.faults out.old }
    ensures calm_answer { K.calm out.old → result ≢ Err untold.SinkFailed }
{
    send_pieces(alloc, out, &[prefix.as_slice(), text.as_slice(), b"\n"])
}

/// Writes the line of a call if the filter shows it, and nothing else.
pub fn tell_call<'a, N: ClassKeys, K: Sink>(
    alloc: Global,
    out: &mut K,
    classes: &'a N,
    filter: &TraceFilter,
    prefix: &'a Text,
    call: Call,
) -> Result<(), Untold>
    requires { IsCall (N.known classes.now) call }
    ensures ok { OnOk result (ShowsAll (K.written out.old) (K.written out.new) (event_text (shows_of filter.now) prefix.now (call_event (N.known classes.now) call))) }
    ensures front { ShowsFront (K.written out.old) (K.written out.new) (event_text (shows_of filter.now) prefix.now (call_event (N.known classes.now) call)) }

    ensures later { K.faults out.old ≤ K.faults out.new }
    ensures cause { result ≡ Err untold.SinkFailed → Rose (K.faults out.old) (K.faults out.new) }

    ensures calm_stays { K.calm out.old → K.calm out.new }
    ensures calm_count { K.calm out.old → K.faults out.new ≡ K.faults out.old }
    ensures calm_answer { K.calm out.old → result ≢ Err untold.SinkFailed }
{
    if !is_shown(alloc, filter, classes, call.class)? {
        return Ok(());
    }
    let parts = [
        Part::Bytes(prefix.as_slice()),
        Part::Bytes(b"# call "),
        Part::Name(call.method.class().number()),
        Part::Bytes(b"::"),
        Part::Bytes(classes.method_name(call.method).as_slice()),
        Part::Bytes(b" "),
        Part::Bytes(word_of(call.manner)),
        Part::Bytes(b" "),
        Part::Name(call.class.number()),
        Part::Bytes(b"\n"),
    ];
    send_parts(alloc, out, classes, &parts)
}

/// The name of a fault.
fn name_of<'a>(fault: Fault) -> &'a [u8]
    ensures { result.now ≡ fault_name fault }
{
    match fault {
        Fault::Nil => b"Nil",
        Fault::Freed => b"Freed",
        Fault::Overflow => b"Overflow",
        Fault::DivideByZero => b"DivideByZero",
        Fault::Cast => b"Cast",
        Fault::NoMethod => b"NoMethod",
        Fault::BadArguments => b"BadArguments",
        Fault::TextTooLong => b"TextTooLong",
        Fault::Depth => b"Depth",
        Fault::ClassFree => b"ClassFree",
        Fault::NotClass => b"NotClass",
    }
}

/// Writes the last line of a run that ends in a fault.
pub fn tell_fault<K: Sink>(
    alloc: Global,
    out: &mut K,
    prefix: &Text,
    fault: Fault,
    at: &Running,
) -> Result<(), Untold>
    ensures ok { OnOk result ((place : Place) → at.now ≡ running_in place → ShowsAll (K.written out.old) (K.written out.new) (end_text prefix.now (Faulted fault place))) }
    ensures front { (place : Place) → at.now ≡ running_in place → ShowsFront (K.written out.old) (K.written out.new) (end_text prefix.now (Faulted fault place)) }

    ensures later { K.faults out.old ≤ K.faults out.new }
    ensures cause { result ≡ Err untold.SinkFailed → Rose (K.faults out.old) (K.faults out.new) }

    ensures calm_stays { K.calm out.old → K.calm out.new }
    ensures calm_count { K.calm out.old → K.faults out.new ≡ K.faults out.old }
    ensures calm_answer { K.calm out.old → result ≢ Err untold.SinkFailed }
{
    let front = prefix.as_slice();
    let name = name_of(fault);
    match at {
        Running::Main => send_pieces(alloc, out, &[front, b"fault ", name, b" in main\n"]),
        Running::Body { class, method } => send_pieces(
            alloc,
            out,
            &[
                front,
                b"fault ",
                name,
                b" in ",
                class.as_slice(),
                b"::",
                method.as_slice(),
                b"\n",
            ],
        ),
    }
}
