//! The step that gets the two releases that are to be compared.

ghost use Rattle.som_cmd_steps.specs.Cause.{HasCause, IsQuiet};
ghost use Rattle.som_cmd_steps.specs.Getting.{FailsGetting};
ghost use Rattle.som_cmd_steps.specs.Refusing.{HasStatusIn, RefusesAs};
ghost use Rattle.som_cmd_steps.specs.Steps.{Follows, FollowsTold};
ghost use Rattle.som_cmd_witness.specs.Releases.{AreSound, releases_from, releases_in};
ghost use Rattle.som_cmd_witness.specs.WitnessAnswer.{witness_statuses};
ghost use Rattle.std.specs.Prelude.{IfOk, [], ◌∷◌, ◌≡◌, ◌≤◌};

use som_cmd_steps::{CommandStop, fetch, look_at_rules, read_release};
use som_io::Store;
use som_model::{List, Release, Text};
use std::alloc::Global;

/// Two releases, of which the newer one is to keep what the older one promised.
#[derive(Drop)]
pub struct Releases {
    pub older: Release,
    pub newer: Release,
}

// The releases of the bytes under both names, where neither breaks a rule.
#[tactic(auto, using(crate::proofs::Reading::older_unread, crate::proofs::Reading::newer_unread, crate::proofs::Reading::older_broken, crate::proofs::Reading::newer_broken, crate::proofs::Reading::both_sound, crate::proofs::Reading::are_sound))]
fn read_releases(
    alloc: Global,
    old: &Text,
    new: &Text,
    old_bytes: &List<u8>,
    new_bytes: &List<u8>,
) -> Result<Releases, CommandStop>
    ensures follows { Follows result (releases_from old.now new.now old_bytes.now new_bytes.now) }
    ensures sound { IfOk result AreSound }
    ensures quiet { IsQuiet result }
{
    let older = read_release(alloc, old, old_bytes)?;
    let newer = read_release(alloc, new, new_bytes)?;
    look_at_rules(alloc, old, &older)?;
    look_at_rules(alloc, new, &newer)?;
    Ok(Releases { older, newer })
}

/// The releases of the images under two names, the older one's first, where neither breaks a rule.
#[tactic(auto, using(crate::proofs::Reading::older_missing, crate::proofs::Reading::newer_missing, crate::proofs::Reading::then_read, crate::proofs::Failing::older_fails, crate::proofs::Failing::newer_fails, crate::proofs::Failing::reading_fails, crate::proofs::Refusals::absent_in_one, crate::proofs::Refusals::read_in))]
pub fn fetch_releases<S: Store>(
    alloc: Global,
    old: &Text,
    new: &Text,
    store: &mut S,
) -> Result<Releases, CommandStop>
    ensures answer { FollowsTold (S.files store.old) result (releases_in old.now new.now) }
    ensures sound { IfOk result AreSound }
    ensures files { S.files store.new ≡ S.files store.old }
    ensures later { S.faults store.old ≤ S.faults store.new }
    ensures cause { HasCause (FailsGetting (S.files store.old) (old.now ∷ new.now ∷ [])) (S.faults store.old) (S.faults store.new) result }
    ensures quiet { S.calm store.old → IsQuiet result }
    ensures calm { S.calm store.old → S.calm store.new }
    ensures refuses { RefusesAs (HasStatusIn witness_statuses) result }
{
    let old_bytes = fetch(alloc, old, store)?;
    let new_bytes = fetch(alloc, new, store)?;
    read_releases(alloc, old, new, &old_bytes, &new_bytes)
}
