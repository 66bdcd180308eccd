//! Prints what is told of two releases, and then puts the client image.

ghost use Rattle.som_cmd_steps.specs.Status.{is_calm_status};
ghost use Rattle.som_cmd_witness.specs.WitnessSteps.{EndsPut, EndsTold};
ghost use Rattle.som_model.specs.Bytes.{AreBytes};
ghost use Rattle.std.specs.List.{concat};
ghost use Rattle.std.specs.Prelude.{IsTrue};

use crate::told::Told;
use som_cmd_steps::{CommandStop, put_image, say, say_lines};
use som_io::{Sink, Store};
use som_model::{List, Text};
use std::alloc::Global;

// Puts the image under the name, and answers 0; or prints that the put failed, and answers 6; or answers that the sink failed or memory ran out.
#[tactic(auto, using(crate::proofs::PutLaws::ends_done, crate::proofs::PutLaws::ends_failed, crate::proofs::PutLaws::ends_refused, crate::proofs::PutLaws::ends_nowhere))]
fn put_after<S: Store, K: Sink>(
    alloc: Global,
    name: &Text,
    image: &List<u8>,
    store: &mut S,
    out: &mut K,
) -> u8
    ensures ends { EndsPut (S.files store.old) name.now image.now (S.faults store.old) (S.faults store.new) (K.faults out.old) (K.faults out.new) result (S.files store.new) (K.written out.old) (K.written out.new) }
    ensures bytes { AreBytes image.now }
    ensures calm { S.calm store.old → K.calm out.old → IsTrue (is_calm_status result) }
{
    let _all = image.as_bytes();
    match put_image(alloc, name, image, store) {
        Ok(_) => 0,
        Err(CommandStop::StoreFailed(line)) => say(out, &line, 6),
        Err(CommandStop::Refused(_)) => 10,
        Err(CommandStop::NoMemory) => 10,
    }
}

/// Prints the lines, and when all are printed, puts the image under the name, if there is one; answers the status.
#[tactic(auto, using(crate::proofs::PutLaws::ends_unsaid, crate::proofs::PutLaws::ends_without, crate::proofs::PutLaws::ends_with))]
pub fn tell_and_put<S: Store, K: Sink>(
    alloc: Global,
    name: &Text,
    told: &Told,
    store: &mut S,
    out: &mut K,
) -> u8
    ensures ends { EndsTold (concat told.now.lines) told.now.image (S.files store.old) name.now (S.faults store.old) (S.faults store.new) (K.faults out.old) (K.faults out.new) result (S.files store.new) (K.written out.old) (K.written out.new) }
    ensures calm { S.calm store.old → K.calm out.old → IsTrue (is_calm_status result) }
{
    let status = say_lines(out, told.lines.as_slice(), 0);
    if status != 0 {
        return status;
    }
    match &told.image {
        None => 0,
        Some(image) => put_after(alloc, name, image, store, out),
    }
}
