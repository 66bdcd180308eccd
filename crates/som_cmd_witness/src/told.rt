//! What is told and put of two releases.

ghost use Rattle.som_cmd_steps.specs.Cause.{HasCause, IsQuiet};
ghost use Rattle.som_cmd_steps.specs.Getting.{FailsGetting};
ghost use Rattle.som_cmd_steps.specs.Refusing.{HasStatusIn, RefusesAs};
ghost use Rattle.som_cmd_witness.specs.Releases.{AreSound};
ghost use Rattle.som_cmd_witness.specs.WitnessAnswer.{witness_statuses};
ghost use Rattle.som_cmd_witness.specs.WitnessSteps.{IsImageOf, IsToldOf, MayBePut, TellsOf, program_in, verdict_on};
ghost use Rattle.std.specs.Prelude.{IfOk, Some, [], ◌∷◌, ◌≡◌, ◌≤◌};

use crate::lines::verdict_lines;
use crate::releases::{Releases, fetch_releases};
use som_cliimage::encode;
use som_cmd_steps::CommandStop;
use som_image_fields::EncodeFault;
use som_io::Store;
use som_model::{ClientProgram, List, NoMemory, Text};
use som_witness::Verdict;
use som_witness_programs::witness;
use std::alloc::Global;

/// What is printed of two releases, and the client image that is put then, if there is one.
#[derive(Drop)]
pub struct Told {
    pub lines: List<Text>,
    pub image: Option<List<u8>>,
}

// What is answered of two releases.
fn verdict_on(alloc: Global, releases: &Releases) -> Result<Verdict, NoMemory>
    requires { AreSound releases.now }
    ensures { IfOk result (λ verdict. verdict ≡ verdict_on releases.now) }
{
    let old = releases.older.interface(alloc)?;
    let new = releases.newer.interface(alloc)?;
    witness(alloc, &old, &new)
}

// The image of a client program.
#[tactic(auto, using(crate::proofs::Telling::image_there))]
fn encoded(alloc: Global, program: &ClientProgram) -> Result<Option<List<u8>>, NoMemory>
    requires { MayBePut (Some program.now) }
    ensures { IfOk result (IsImageOf (Some program.now)) }
{
    match encode(alloc, program) {
        Ok(image) => Ok(Some(image)),
        Err(EncodeFault::NoMemory) => Err(NoMemory),
    }
}

// The image of the client program that a verdict has.
fn image_of(alloc: Global, verdict: &Verdict) -> Result<Option<List<u8>>, NoMemory>
    requires { MayBePut (program_in verdict.now) }
    ensures { IfOk result (IsImageOf (program_in verdict.now)) }
{
    match verdict {
        Verdict::Accepted => Ok(None),
        Verdict::VersionOnly { class: _ } => Ok(None),
        Verdict::Shown {
            rule: _,
            class: _,
            name: _,
            place: _,
            program,
            texts: _,
        } => encoded(alloc, program),
    }
}

// What is told and put of two releases.
fn tell_of(alloc: Global, releases: &Releases) -> Result<Told, NoMemory>
    requires { AreSound releases.now }
    ensures { IfOk result (IsToldOf (verdict_on releases.now)) }
{
    let verdict = verdict_on(alloc, releases)?;
    let lines = verdict_lines(alloc, &verdict)?;
    let image = image_of(alloc, &verdict)?;
    Ok(Told { lines, image })
}

/// What is told and put of the releases of the images under two names.
#[tactic(auto, using(crate::proofs::Telling::none_told, crate::proofs::Telling::both_told))]
pub fn told_of<S: Store>(
    alloc: Global,
    old: &Text,
    new: &Text,
    store: &mut S,
) -> Result<Told, CommandStop>
    ensures tells { TellsOf (S.files store.old) old.now new.now result }
    ensures files { S.files store.new ≡ S.files store.old }
    ensures later { S.faults store.old ≤ S.faults store.new }
    ensures cause { HasCause (FailsGetting (S.files store.old) (old.now ∷ new.now ∷ [])) (S.faults store.old) (S.faults store.new) result }
    ensures quiet { S.calm store.old → IsQuiet result }
    ensures calm { S.calm store.old → S.calm store.new }
    ensures refuses { RefusesAs (HasStatusIn witness_statuses) result }
{
    let releases = fetch_releases(alloc, old, new, store)?;
    let told = tell_of(alloc, &releases)?;
    Ok(told)
}
