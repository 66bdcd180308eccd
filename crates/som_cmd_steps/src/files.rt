//! The steps that get the bytes under a name, and under several names, from a store.

ghost use Rattle.som_cmd_steps.specs.Cause.{HasCause, IsQuiet};
ghost use Rattle.som_cmd_steps.specs.Fetching.{file_of};
ghost use Rattle.som_cmd_steps.specs.Getting.{FailsGetting, IsAbsentOf, images_in};
ghost use Rattle.som_cmd_steps.specs.Lines.{absent, store_failed};
ghost use Rattle.som_cmd_steps.specs.Refusing.{RefusesAs};
ghost use Rattle.som_cmd_steps.specs.Steps.{FollowsTold};
ghost use Rattle.std.specs.Prelude.{IfOk, length, ◌≡◌, ◌≤◌};

use crate::line::named_line;
use crate::stop::{CommandStop, Refusal, Why};
use som_io::{Got, Store};
use som_model::{List, Text};
use std::alloc::Global;

/// The bytes under a name.
pub fn fetch<S: Store>(alloc: Global, name: &Text, store: &mut S) -> Result<List<u8>, CommandStop>
    ensures answer { FollowsTold (S.files store.old) result (file_of name.now) }
    ensures files { S.files store.new ≡ S.files store.old }
    ensures later { S.faults store.old ≤ S.faults store.new }
    ensures cause { HasCause (λ line. line ≡ store_failed name.now) (S.faults store.old) (S.faults store.new) result }
    ensures calm { S.calm store.old → S.calm store.new }
    ensures quiet { S.calm store.old → IsQuiet result }
    ensures refuses { RefusesAs (λ r. r ≡ absent name.now) result }
{
    match store.get(name) {
        Got::Bytes(bytes) => Ok(bytes),
        Got::Absent => Err(CommandStop::Refused(Refusal {
            line: named_line(alloc, b"absent ", name)?,
            why: Why::Absent,
        })),
        Got::Failed => Err(CommandStop::StoreFailed(named_line(alloc, b"store failed ", name)?)),
        Got::NoMemory => Err(CommandStop::NoMemory),
    }
}

/// The bytes under each name, which are got in their order.
#[tactic(auto, using(crate::proofs::InTurn::absent_of))]
pub fn fetch_all<S: Store>(
    alloc: Global,
    names: &[Text],
    store: &mut S,
) -> Result<List<List<u8>>, CommandStop>
    ensures answer { FollowsTold (S.files store.old) result (images_in names.now) }
    ensures long { IfOk result (λ images. length images ≡ length names.now) }
    ensures files { S.files store.new ≡ S.files store.old }
    ensures later { S.faults store.old ≤ S.faults store.new }
    ensures cause { HasCause (FailsGetting (S.files store.old) names.now) (S.faults store.old) (S.faults store.new) result }
    ensures calm { S.calm store.old → S.calm store.new }
    ensures quiet { S.calm store.old → IsQuiet result }
    ensures refuses { RefusesAs (IsAbsentOf names.now) result }
{
    let mut images = List::new(alloc);
    for name in names {
        images.push(fetch(alloc, name, store)?)?;
    }
    Ok(images)
}
