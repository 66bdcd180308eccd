//! The command `tower check`: decodes two tower images of libraries, checks their rules, and compares the newer with the older.

ghost use Rattle.som_cmd_steps.specs.Answering.{AnswersTold};
ghost use Rattle.som_cmd_steps.specs.Cause.{HasCause, IsQuiet};
ghost use Rattle.som_cmd_steps.specs.Getting.{FailsGetting};
ghost use Rattle.som_cmd_steps.specs.Outcomes.{EndsAsTold, ShowsSome, StoreFails};
ghost use Rattle.som_cmd_steps.specs.Refusing.{EndsIn, HasStatusIn, RefusesAs};
ghost use Rattle.som_cmd_steps.specs.Status.{is_calm_status};
ghost use Rattle.som_cmd_steps.specs.Steps.{Follows, FollowsTold};
ghost use Rattle.som_cmd_steps.specs.declared.output.End.TheVariants as ends;
ghost use Rattle.som_cmd_tower_check.specs.Libraries.{IsReadLibrary};
ghost use Rattle.som_cmd_tower_check.specs.TowerCheckAnswer.{IsTowerCheckAnswer, line_checked, line_compared, line_told, tower_check_statuses};
ghost use Rattle.som_io.specs.Outside.{Rose};
ghost use Rattle.som_model.specs.Lists.{Mem};
ghost use Rattle.std.specs.Prelude.{IfOk, IsTrue, [], length, ◌∷◌, ◌≡◌, ◌≢◌, ◌≤◌, ◌⊎◌};

use crate::compare::compare;
use som_cmd_levels::{read_level, read_upper};
use som_cmd_steps::{CommandStop, End, Output, fetch, look_at_program, tell};
use som_io::{Sink, Store};
use som_model::{List, NoMemory, Text};
use som_towerimage::Level;
use std::alloc::Global;

// The line that comes of two libraries: their rules are looked at, and they are compared.
#[tactic(auto, using(crate::proofs::Reading::old_broken, crate::proofs::Reading::new_broken, crate::proofs::Reading::then_compared))]
fn compare_levels(
    alloc: Global,
    old_name: &Text,
    new_name: &Text,
    old: &Level,
    new: &Level,
) -> Result<Text, CommandStop>
    requires old { IsReadLibrary old.now }
    requires new { IsReadLibrary new.now }
    requires alike { length new.now.sizes ≡ length old.now.sizes }
    ensures follows { Follows result (line_compared old_name.now new_name.now old.now new.now) }
    ensures quiet { IsQuiet result }
{
    look_at_program(alloc, old_name, &old.program)?;
    look_at_program(alloc, new_name, &new.program)?;
    compare(alloc, new_name, old, new)
}

// The line that comes of two images.
#[tactic(auto, using(crate::proofs::Reading::old_unread, crate::proofs::Reading::new_unread, crate::proofs::Reading::both_read))]
fn check_bytes(
    alloc: Global,
    old: &Text,
    new: &Text,
    old_bytes: &List<u8>,
    new_bytes: &List<u8>,
) -> Result<Text, CommandStop>
    ensures follows { Follows result (line_checked old.now new.now old_bytes.now new_bytes.now) }
    ensures quiet { IsQuiet result }
{
    let old_level = read_upper(alloc, old, old_bytes)?;
    let new_level = read_level(alloc, new, new_bytes, old_level.sizes.len(), false)?;
    compare_levels(alloc, old, new, &old_level, &new_level)
}

// The line that comes of the images under two names.
#[tactic(auto, using(crate::proofs::Getting::old_missing, crate::proofs::Getting::new_missing, crate::proofs::Getting::then_checked, crate::proofs::Getting::old_fails, crate::proofs::Getting::new_fails, crate::proofs::Getting::checking_fails, crate::proofs::Refusing::absent_status, crate::proofs::Refusing::checked_status))]
fn check_line<S: Store>(
    alloc: Global,
    old: &Text,
    new: &Text,
    store: &mut S,
) -> Result<Text, CommandStop>
    ensures answer { FollowsTold (S.files store.old) result (line_told old.now new.now) }
    ensures files { S.files store.new ≡ S.files store.old }
    ensures later { S.faults store.old ≤ S.faults store.new }
    ensures cause { HasCause (FailsGetting (S.files store.old) (old.now ∷ new.now ∷ [])) (S.faults store.old) (S.faults store.new) result }
    ensures quiet { S.calm store.old → IsQuiet result }
    ensures refuses { RefusesAs (HasStatusIn tower_check_statuses) result }
{
    let old_bytes = fetch(alloc, old, store)?;
    let new_bytes = fetch(alloc, new, store)?;
    check_bytes(alloc, old, new, &old_bytes, &new_bytes)
}

// One line.
fn only(alloc: Global, line: Text) -> Result<Output, NoMemory>
    ensures { IfOk result (λ o. o ≡ record { lines = line ∷ []; end = ends.Done }) }
{
    let mut lines = List::new(alloc);
    lines.push(line)?;
    Ok(Output {
        lines,
        end: End::Done,
    })
}

// What comes of checking two images.
#[tactic(auto, using(crate::proofs::CheckLaws::line_refused, crate::proofs::CheckLaws::line_printed))]
fn check_output<S: Store>(
    alloc: Global,
    old: &Text,
    new: &Text,
    store: &mut S,
) -> Result<Output, CommandStop>
    ensures answer { AnswersTold (IsTowerCheckAnswer old.now new.now) (S.files store.old) result }
    ensures files { S.files store.new ≡ S.files store.old }
    ensures later { S.faults store.old ≤ S.faults store.new }
    ensures cause { HasCause (FailsGetting (S.files store.old) (old.now ∷ new.now ∷ [])) (S.faults store.old) (S.faults store.new) result }
    ensures quiet { S.calm store.old → IsQuiet result }
    ensures ends { EndsIn tower_check_statuses result }
{
    let line = check_line(alloc, old, new, store)?;
    Ok(only(alloc, line)?)
}

/// Checks a newer library that stands above others against an older one: prints that it is accepted, or the line that tells what isn't, and
/// answers the status.
pub fn check_levels<S: Store, K: Sink>(
    alloc: Global,
    old: &Text,
    new: &Text,
    store: &mut S,
    out: &mut K,
) -> u8
    // Without faults and with memory it is the answer: its text, its status, its files.
    ensures answered { result ≢ 6 → result ≢ 8 → result ≢ 10 →
        EndsAsTold (IsTowerCheckAnswer old.now new.now) (S.files store.old) result (S.files store.new) (K.written out.old) (K.written out.new) }

    // It ends with one of these statuses.
    ensures statuses { Mem result tower_check_statuses }

    // The store failed in this call, and the line that says so is all that was written.
    ensures store_failed { result ≡ 6 → StoreFails (FailsGetting (S.files store.old) (old.now ∷ new.now ∷ [])) (S.faults store.old) (S.faults store.new) (K.written out.old) (K.written out.new) }

    // The sink failed in this call.
    ensures sink_failed { result ≡ 8 → Rose (K.faults out.old) (K.faults out.new) }

    // What was written before the sink failed or memory ran out is a front of the text.
    ensures front { (result ≡ 8) ⊎ (result ≡ 10) →
        ShowsSome (IsTowerCheckAnswer old.now new.now) (FailsGetting (S.files store.old) (old.now ∷ new.now ∷ [])) (S.files store.old) (S.faults store.old) (S.faults store.new) (K.written out.old) (K.written out.new) }

    // No words are refused here.
    ensures words { result ≢ 2 }

    // Over a store and a sink of which nothing is set to fail, neither is said to fail.
    ensures calm { S.calm store.old → K.calm out.old → IsTrue (is_calm_status result) }

    // No file is changed.
    ensures files { S.files store.new ≡ S.files store.old }
{
    tell(out, &check_output(alloc, old, new, store))
}
