//! The command `witness`: tells whether the newer of two releases is accepted, and else a client that shows why not, whose image it puts.

ghost use Rattle.som_cmd_steps.specs.Outcomes.{EndsAsTold, ShowsSome, StoreFails};
ghost use Rattle.som_cmd_steps.specs.Status.{is_calm_status};
ghost use Rattle.som_cmd_witness.specs.Cause.{FailsWitness};
ghost use Rattle.som_cmd_witness.specs.WitnessAnswer.{IsWitnessAnswer, witness_statuses};
ghost use Rattle.som_cmd_witness.specs.WitnessEnds.{LeavesFilesTold, TellsWitnessOf};
ghost use Rattle.som_io.specs.Outside.{Rose};
ghost use Rattle.som_model.specs.Lists.{Mem};
ghost use Rattle.std.specs.Prelude.{IsTrue, ◌≡◌, ◌≢◌, ◌⊎◌};

use crate::putting::tell_and_put;
use crate::told::told_of;
use som_cmd_steps::refuse;
use som_io::{Sink, Store};
use som_model::Text;
use std::alloc::Global;

/// Compares a newer release with an older one: prints that it is accepted, or what it breaks and the texts of a client that shows it, and then puts the image of that client
/// under a name; answers the status.
pub fn witness_images<S: Store, K: Sink>(
    alloc: Global,
    out_name: &Text,
    old: &Text,
    new: &Text,
    store: &mut S,
    out: &mut K,
) -> u8
    // Without faults and with memory it is the answer: its text, its status, its files.
    ensures answered { result ≢ 6 → result ≢ 8 → result ≢ 10 →
        EndsAsTold (IsWitnessAnswer out_name.now old.now new.now) (S.files store.old) result (S.files store.new) (K.written out.old) (K.written out.new) }

    // It ends with one of these statuses.
    ensures statuses { Mem result witness_statuses }

    // The store failed in this call, and what was written is the line that says so of a get, or all that is told and then the line that says so of the put.
    ensures store_failed { result ≡ 6 → StoreFails (FailsWitness (S.files store.old) out_name.now old.now new.now) (S.faults store.old) (S.faults store.new) (K.written out.old) (K.written out.new) }

    // The sink failed in this call.
    ensures sink_failed { result ≡ 8 → Rose (K.faults out.old) (K.faults out.new) }

    // What was written before the sink failed or memory ran out is a front of the text.
    ensures front { (result ≡ 8) ⊎ (result ≡ 10) →
        ShowsSome (IsWitnessAnswer out_name.now old.now new.now) (FailsWitness (S.files store.old) out_name.now old.now new.now) (S.files store.old) (S.faults store.old) (S.faults store.new) (K.written out.old) (K.written out.new) }

    // No words are refused here.
    ensures words { result ≢ 2 }

    // Over a store and a sink of which nothing is set to fail, neither is said to fail.
    ensures calm { S.calm store.old → K.calm out.old → IsTrue (is_calm_status result) }

    // The files are as they were, if the status isn't 0 or nothing is to be put; or all of the text was written and they hold the client's image under the name; or the store
    // failed in this call, what was written is the text and that the put failed, and they are as such a put may leave them.
    ensures files { LeavesFilesTold (S.files store.old) out_name.now old.now new.now (S.faults store.old) (S.faults store.new) result (S.files store.new) (K.written out.old) (K.written out.new) }

    // Of two releases that conform, and whose images stand under the names, it is told that the newer one keeps all, or that a class has another version; or else the client that
    // shows the breach, whose image is put.
    ensures witnessed { result ≢ 6 → result ≢ 8 → result ≢ 10 →
        TellsWitnessOf (S.files store.old) out_name.now old.now new.now result (S.files store.new) (K.written out.old) (K.written out.new) }
{
    match told_of(alloc, old, new, store) {
        Err(stop) => refuse(out, &stop),
        Ok(told) => tell_and_put(alloc, out_name, &told, store, out),
    }
}
