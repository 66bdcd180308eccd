//! The command `show`: decodes an image, checks its rules, and prints its classes.

ghost use Rattle.som_cmd_check.specs.Cause.{FailsShowing};
ghost use Rattle.som_cmd_check.specs.ShowAnswer.{IsShowAnswer, is_client, show_statuses};
ghost use Rattle.som_cmd_check.specs.ShowSteps.{lines_shown, program_lines, release_lines};
ghost use Rattle.som_io.specs.Outside.{Rose};
ghost use Rattle.som_model.specs.Lists.{Mem};
ghost use Rattle.som_cmd_steps.specs.Answering.{AnswersTold};
ghost use Rattle.som_cmd_steps.specs.Cause.{HasCause, IsQuiet};
ghost use Rattle.som_cmd_steps.specs.Outcomes.{EndsAsTold, ShowsSome, StoreFails};
ghost use Rattle.som_cmd_steps.specs.Refusing.{EndsIn};
ghost use Rattle.som_cmd_steps.specs.Status.{is_calm_status};
ghost use Rattle.som_cmd_steps.specs.Steps.{Follows};
ghost use Rattle.std.specs.Prelude.{IsTrue, ◌≡◌, ◌≢◌, ◌≤◌, ◌⊎◌};

use som_cmd_steps::{CommandStop, End, Output, fetch, sound_program, sound_release, tell};
use som_io::{Sink, Store};
use som_model::{List, Text};
use som_show::{shown, shown_client};
use std::alloc::Global;

// Whether bytes are read as a client image: the fourth says so.
fn is_client(bytes: &List<u8>) -> bool
    ensures { result ≡ is_client bytes.now }
{
    match bytes.as_slice() {
        [_, _, _, kind, ..] => *kind == b'C',
        _ => false,
    }
}

// The lines that show a library image.
#[tactic(auto, using(crate::proofs::ShowLaws::release_stops, crate::proofs::ShowLaws::release_is_shown))]
fn release_lines(alloc: Global, name: &Text, bytes: &List<u8>) -> Result<List<Text>, CommandStop>
    ensures follows { Follows result (release_lines name.now bytes.now) }
    ensures quiet { IsQuiet result }
{
    let release = sound_release(alloc, name, bytes)?;
    Ok(shown(alloc, &release)?)
}

// The lines that show a client image.
#[tactic(auto, using(crate::proofs::ShowLaws::program_stops, crate::proofs::ShowLaws::program_is_shown))]
fn program_lines(alloc: Global, name: &Text, bytes: &List<u8>) -> Result<List<Text>, CommandStop>
    ensures follows { Follows result (program_lines name.now bytes.now) }
    ensures quiet { IsQuiet result }
{
    let program = sound_program(alloc, name, bytes)?;
    Ok(shown_client(alloc, &program)?)
}

// The lines that show an image.
#[tactic(auto, using(crate::proofs::ShowLaws::as_client, crate::proofs::ShowLaws::as_library))]
fn show_bytes(alloc: Global, name: &Text, bytes: &List<u8>) -> Result<List<Text>, CommandStop>
    ensures follows { Follows result (lines_shown name.now bytes.now) }
    ensures quiet { IsQuiet result }
{
    if is_client(bytes) {
        program_lines(alloc, name, bytes)
    } else {
        release_lines(alloc, name, bytes)
    }
}

// What shows an image.
#[tactic(auto, using(crate::proofs::ShowLaws::image_missing, crate::proofs::ShowLaws::bytes_refused, crate::proofs::ShowLaws::bytes_shown, crate::proofs::CheckRefusals::image_absent_in, crate::proofs::CheckRefusals::shown_in))]
fn show_output<S: Store>(alloc: Global, name: &Text, store: &mut S) -> Result<Output, CommandStop>
    ensures answer { AnswersTold (IsShowAnswer name.now) (S.files store.old) result }
    ensures files { S.files store.new ≡ S.files store.old }
    ensures later { S.faults store.old ≤ S.faults store.new }
    ensures cause { HasCause (FailsShowing (S.files store.old) name.now) (S.faults store.old) (S.faults store.new) result }
    ensures quiet { S.calm store.old → IsQuiet result }
    ensures ends { EndsIn show_statuses result }
{
    let bytes = fetch(alloc, name, store)?;
    let lines = show_bytes(alloc, name, &bytes)?;
    Ok(Output {
        lines,
        end: End::Done,
    })
}

/// Shows an image: prints its lines, or the line that refuses it, and answers the status.
pub fn show_image<S: Store, K: Sink>(alloc: Global, name: &Text, store: &mut S, out: &mut K) -> u8
    // Without faults and with memory it is the answer: its text, its status, its files.
    ensures answered { result ≢ 6 → result ≢ 8 → result ≢ 10 →
        EndsAsTold (IsShowAnswer name.now) (S.files store.old) result (S.files store.new) (K.written out.old) (K.written out.new) }

    // It ends with one of these statuses.
    ensures statuses { Mem result show_statuses }

    // The store failed in this call, and the line that says so is all that was written.
    ensures store_failed { result ≡ 6 → StoreFails (FailsShowing (S.files store.old) name.now) (S.faults store.old) (S.faults store.new) (K.written out.old) (K.written out.new) }

    // The sink failed in this call.
    ensures sink_failed { result ≡ 8 → Rose (K.faults out.old) (K.faults out.new) }

    // What was written before the sink failed or memory ran out is a front of the text.
    ensures front { (result ≡ 8) ⊎ (result ≡ 10) →
        ShowsSome (IsShowAnswer name.now) (FailsShowing (S.files store.old) name.now) (S.files store.old) (S.faults store.old) (S.faults store.new) (K.written out.old) (K.written out.new) }

    // No words are refused here.
    ensures words { result ≢ 2 }

    // Over a store and a sink of which nothing is set to fail, neither is said to fail.
    ensures calm { S.calm store.old → K.calm out.old → IsTrue (is_calm_status result) }

    // No file is changed.
    ensures files { S.files store.new ≡ S.files store.old }
{
    tell(out, &show_output(alloc, name, store))
}
