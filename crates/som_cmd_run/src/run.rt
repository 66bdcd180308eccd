//! The command `run`: links a client image with a library image, and interprets main.

ghost use Rattle.som_io.specs.Outside.{Rose};
ghost use Rattle.som_model.specs.Lists.{Mem};
ghost use Rattle.som_cmd_link.specs.Cause.{FailsRunning};
ghost use Rattle.som_cmd_link.specs.Refusals.{IsRunRefusal};
ghost use Rattle.som_cmd_main.specs.Traces.{shown_in};
ghost use Rattle.som_cmd_run.specs.RunAnswer.{IsRunAnswer, run_statuses};
ghost use Rattle.som_cmd_steps.specs.Outcomes.{EndsAsTold, ShowsSome, StoreFails};
ghost use Rattle.som_cmd_steps.specs.Refusing.{TellsRefusal};
ghost use Rattle.som_cmd_steps.specs.Status.{is_calm_status};
ghost use Rattle.std.specs.Prelude.{IsTrue, ◌≡◌, ◌≢◌, ◌⊎◌};

use som_cmd_link::link_images;
use som_cmd_main::{Trace, run_main};
use som_cmd_steps::refuse;
use som_host::HostTable;
use som_io::{Sink, Store};
use som_model::Text;
use std::alloc::Global;

/// Runs a client on a library with so much fuel: prints what it prints, with the calls that a trace asks for, or the line that refuses
/// it, and answers the status.
pub fn run_client<S: Store, K: Sink>(
    alloc: Global,
    client: &Text,
    library: &Text,
    fuel: u32,
    trace: Trace<'_>,
    store: &mut S,
    out: &mut K,
    host: &HostTable,
) -> u8
    // Without faults and with memory it is the answer: its text, its status, its files.
    ensures answered { result ≢ 6 → result ≢ 8 → result ≢ 10 →
        EndsAsTold (IsRunAnswer client.now library.now fuel (shown_in trace.entry)) (S.files store.old) result (S.files store.new) (K.written out.old) (K.written out.new) }

    // It ends with one of these statuses.
    ensures statuses { Mem result run_statuses }

    // A refusal is told by its one line alone.
    ensures one_line { (result ≡ 4) ⊎ (result ≡ 5) ⊎ (result ≡ 7) → TellsRefusal (IsRunRefusal client.now library.now) result (K.written out.old) (K.written out.new) }

    // The store failed in this call, and the line that says so is all that was written.
    ensures store_failed { result ≡ 6 → StoreFails (FailsRunning (S.files store.old) client.now library.now) (S.faults store.old) (S.faults store.new) (K.written out.old) (K.written out.new) }

    // The sink failed in this call.
    ensures sink_failed { result ≡ 8 → Rose (K.faults out.old) (K.faults out.new) }

    // What was written before the sink failed or memory ran out is a front of the text.
    ensures front { (result ≡ 8) ⊎ (result ≡ 10) →
        ShowsSome (IsRunAnswer client.now library.now fuel (shown_in trace.entry)) (FailsRunning (S.files store.old) client.now library.now) (S.files store.old) (S.faults store.old) (S.faults store.new) (K.written out.old) (K.written out.new) }

    // No words are refused here.
    ensures words { result ≢ 2 }

    // Over a store and a sink of which nothing is set to fail, neither is said to fail.
    ensures calm { S.calm store.old → K.calm out.old → IsTrue (is_calm_status result) }

    // No file is changed.
    ensures files { S.files store.new ≡ S.files store.old }
{
    match link_images(alloc, client, library, store) {
        Err(stop) => refuse(out, &stop),
        Ok(mut kernel) => run_main(alloc, &mut kernel, fuel, trace, host, out),
    }
}
