//! The last step of `library` and `client`, the put of their image, and what they print. Here alone it is said that a put failed.

ghost use Rattle.som_cmd_build.specs.PutSteps.{EndHasCause, IsQuietEnd, PlacedTold, outcome_of};
ghost use Rattle.som_cmd_build.specs.declared.putting.PutEnd.TheVariants as ends;
ghost use Rattle.som_io.specs.Outside.{Rose};
ghost use Rattle.som_model.specs.Bytes.{AreBytes};
ghost use Rattle.som_cmd_steps.specs.Refusing.{RefusesAs};
ghost use Rattle.som_cmd_steps.specs.Saying.{SaysAll, SaysFailure, SaysFront};
ghost use Rattle.som_cmd_steps.specs.Status.{is_calm_status};
ghost use Rattle.std.specs.Prelude.{IsTrue, Ok, ◌≡◌, ◌≢◌, ◌≤◌};

use som_cmd_steps::{CommandStop, put_image, refuse, say};
use som_io::{Sink, Store};
use som_model::{List, Text};
use std::alloc::Global;

/// A put that failed, with the line that says so. Nothing makes one but `put`, so no other call on the store is told as a failed put.
#[derive(Drop)]
pub struct FailedPut {
    line: Text,
}

/// How a put ended for which memory lasted.
#[derive(Drop)]
pub enum PutEnd {
    Done,
    Failed(FailedPut),
}

/// Puts an image under a name.
#[tactic(auto, using(crate::proofs::PlacedLaws::image_placed, crate::proofs::PlacedLaws::image_failed, crate::proofs::PlacedLaws::none_refused, crate::proofs::PlacedLaws::none_placed))]
pub fn put<S: Store>(
    alloc: Global,
    name: &Text,
    image: &List<u8>,
    store: &mut S,
) -> Result<PutEnd, CommandStop>
    ensures placed { PlacedTold (S.files store.old) name.now image.now result (S.files store.new) }
    ensures bytes { AreBytes image.now }
    ensures later { S.faults store.old ≤ S.faults store.new }
    ensures cause { EndHasCause (λ line. ⊥) name.now (S.faults store.old) (S.faults store.new) result }
    ensures quiet { S.calm store.old → IsQuietEnd result }
    ensures refuses { RefusesAs (λ r. ⊥) result }
{
    let _all = image.as_bytes();
    match put_image(alloc, name, image, store) {
        Ok(_) => Ok(PutEnd::Done),
        Err(CommandStop::StoreFailed(line)) => Ok(PutEnd::Failed(FailedPut { line })),
        Err(CommandStop::Refused(refusal)) => Err(CommandStop::Refused(refusal)),
        Err(CommandStop::NoMemory) => Err(CommandStop::NoMemory),
    }
}

/// Writes what such a command came to, and answers the status.
#[tactic(auto, using(som_io::proofs::ShownLaws::shows_none, som_io::proofs::ShownLaws::front_none))]
pub fn tell_put<K: Sink>(out: &mut K, end: &Result<PutEnd, CommandStop>) -> u8
    ensures all { result ≢ 6 → result ≢ 8 → result ≢ 10 → SaysAll (outcome_of end.now) result (K.written out.old) (K.written out.new) }
    ensures store_failed { result ≡ 6 → SaysFailure (outcome_of end.now) (K.written out.old) (K.written out.new) }
    ensures sink_failed { result ≡ 8 → Rose (K.faults out.old) (K.faults out.new) }
    ensures front { SaysFront (outcome_of end.now) (K.written out.old) (K.written out.new) }
    ensures done { end.now ≡ Ok ends.Done → result ≡ 0 }
    ensures words { result ≢ 2 }
    ensures calm { K.calm out.old → IsQuietEnd end.now → IsTrue (is_calm_status result) }
{
    match end {
        Ok(PutEnd::Done) => 0,
        Ok(PutEnd::Failed(put)) => say(out, &put.line, 6),
        Err(stop) => refuse(out, stop),
    }
}
