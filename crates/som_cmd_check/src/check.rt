//! The command `check`: decodes library images, checks their rules, and compares each with the one before.

ghost use Rattle.som_cmd_check.specs.CheckAnswer.{IsCheckAnswer, all_rules_kept, check_statuses, first_not_kept, releases_in};
ghost use Rattle.som_cmd_check.specs.CheckSteps.{accepted_or, line_checked};
ghost use Rattle.som_io.specs.Outside.{Rose};
ghost use Rattle.som_libimage.specs.Limits.{IsWithinLimits};
ghost use Rattle.som_model.specs.Class.{interface_of};
ghost use Rattle.som_model.specs.Conforming.{ReleaseOk};
ghost use Rattle.som_model.specs.Lists.{Mem};
ghost use Rattle.som_order.specs.Names.{name_at};
ghost use Rattle.som_cmd_steps.specs.Answering.{AnswersTold};
ghost use Rattle.som_cmd_steps.specs.Cause.{HasCause, IsQuiet};
ghost use Rattle.som_cmd_steps.specs.Getting.{FailsGetting};
ghost use Rattle.som_cmd_steps.specs.Outcomes.{EndsAsTold, ShowsSome, StoreFails};
ghost use Rattle.som_cmd_steps.specs.Refusing.{EndsIn};
ghost use Rattle.som_cmd_steps.specs.Status.{is_calm_status};
ghost use Rattle.som_cmd_steps.specs.Steps.{Follows};
ghost use Rattle.som_cmd_steps.specs.declared.output.End.TheVariants as ends;
ghost use Rattle.std.specs.Prelude.{All, IfOk, IsTrue, [], length, map, ◌<◌, ◌∷◌, ◌≡◌, ◌≢◌, ◌≤◌, ◌⊎◌};

use som_cmd_steps::{
    CommandStop, End, Output, fetch_all, line_of, look_at_rules, read_release, refuse_breach, tell,
};
use som_compat::check_list;
use som_io::{Sink, Store};
use som_model::{Interface, List, NoMemory, Release, Text};
use std::alloc::Global;

// The release of each image.
fn read_all(
    alloc: Global,
    names: &[Text],
    images: &[List<u8>],
) -> Result<List<Release>, CommandStop>
    requires { length images.now ≡ length names.now }
    ensures follows { Follows result (releases_in names.now images.now) }
    ensures long { IfOk result (λ rs. length rs ≡ length names.now) }
    ensures within { IfOk result (λ rs. All IsWithinLimits rs) }
    ensures quiet { IsQuiet result }
{
    let mut releases = List::new(alloc);
    for place in 0..names.len() {
        releases.push(read_release(alloc, &names[place], &images[place])?)?;
    }
    Ok(releases)
}

// Goes on where no release breaks a rule.
fn look_at_all_rules(alloc: Global, names: &[Text], releases: &[Release]) -> Result<(), CommandStop>
    requires { length releases.now ≡ length names.now }
    ensures follows { Follows result (all_rules_kept names.now releases.now) }
    ensures conform { IfOk result (λ _. All ReleaseOk releases.now) }
    ensures quiet { IsQuiet result }
{
    for place in 0..names.len() {
        look_at_rules(alloc, &names[place], &releases[place])?;
    }
    Ok(())
}

// The classes that each release shows.
fn interfaces(alloc: Global, releases: &[Release]) -> Result<List<Interface>, NoMemory>
    ensures { IfOk result (λ all. all ≡ map interface_of releases.now) }
{
    let mut all = List::new(alloc);
    for release in releases {
        all.push(release.interface(alloc)?)?;
    }
    Ok(all)
}

fn name_at(names: &[Text], place: usize) -> &Text
    requires { place < length names.now }
    ensures { result.now ≡ name_at names.now place }
{
    &names[place]
}

// The line that accepts, where each release is accepted against the one before it.
fn compare_all(alloc: Global, names: &[Text], releases: &[Release]) -> Result<Text, CommandStop>
    requires long { length releases.now ≡ length names.now }
    requires conform { All ReleaseOk releases.now }
    requires within { All IsWithinLimits releases.now }
    ensures follows { Follows result (accepted_or names.now (first_not_kept releases.now)) }
    ensures quiet { IsQuiet result }
{
    let faces = interfaces(alloc, releases)?;
    match check_list(&faces) {
        Ok(_) => Ok(line_of(alloc, b"accepted")?),
        Err((number, breach)) => {
            Err(CommandStop::Refused(refuse_breach(alloc, name_at(names, number), &breach)?))
        }
    }
}

// The line that comes of checking images under their names.
fn check_bytes(alloc: Global, names: &[Text], images: &[List<u8>]) -> Result<Text, CommandStop>
    requires { length images.now ≡ length names.now }
    ensures follows { Follows result (line_checked names.now images.now) }
    ensures quiet { IsQuiet result }
{
    let releases = read_all(alloc, names, images)?;
    look_at_all_rules(alloc, names, releases.as_slice())?;
    compare_all(alloc, names, releases.as_slice())
}

// One line.
fn only(alloc: Global, line: Text) -> Result<Output, NoMemory>
    ensures { IfOk result (λ o. o ≡ record { lines = line ∷ []; end = ends.Done }) }
{
    let mut lines = List::new(alloc);
    lines.push(line)?;
    Ok(Output {
        lines,
        end: End::Done,
    })
}

// What comes of checking images, each against the one before it.
#[tactic(auto, using(crate::proofs::CheckLaws::images_missing, crate::proofs::CheckRefusals::absent_among, crate::proofs::CheckLaws::images_refused, crate::proofs::CheckLaws::images_accepted, crate::proofs::CheckRefusals::checked_in))]
fn check_output<S: Store>(
    alloc: Global,
    names: &[Text],
    store: &mut S,
) -> Result<Output, CommandStop>
    ensures answer { AnswersTold (IsCheckAnswer names.now) (S.files store.old) result }
    ensures files { S.files store.new ≡ S.files store.old }
    ensures later { S.faults store.old ≤ S.faults store.new }
    ensures cause { HasCause (FailsGetting (S.files store.old) names.now) (S.faults store.old) (S.faults store.new) result }
    ensures quiet { S.calm store.old → IsQuiet result }
    ensures ends { EndsIn check_statuses result }
{
    let images = fetch_all(alloc, names, store)?;
    let line = check_bytes(alloc, names, images.as_slice())?;
    Ok(only(alloc, line)?)
}

/// Checks images, each against the one before it: prints that they are accepted, or the line that tells what is not, and answers the status.
pub fn check_images<S: Store, K: Sink>(
    alloc: Global,
    names: &[Text],
    store: &mut S,
    out: &mut K,
) -> u8
    // Without faults and with memory it is the answer: its text, its status, its files.
    ensures answered { result ≢ 6 → result ≢ 8 → result ≢ 10 →
        EndsAsTold (IsCheckAnswer names.now) (S.files store.old) result (S.files store.new) (K.written out.old) (K.written out.new) }

    // It ends with one of these statuses.
    ensures statuses { Mem result check_statuses }

    // The store failed in this call, and the line that says so is all that was written.
    ensures store_failed { result ≡ 6 → StoreFails (FailsGetting (S.files store.old) names.now) (S.faults store.old) (S.faults store.new) (K.written out.old) (K.written out.new) }

    // The sink failed in this call.
    ensures sink_failed { result ≡ 8 → Rose (K.faults out.old) (K.faults out.new) }

    // What was written before the sink failed or memory ran out is a front of the text.
    ensures front { (result ≡ 8) ⊎ (result ≡ 10) →
        ShowsSome (IsCheckAnswer names.now) (FailsGetting (S.files store.old) names.now) (S.files store.old) (S.faults store.old) (S.faults store.new) (K.written out.old) (K.written out.new) }

    // No words are refused here.
    ensures words { result ≢ 2 }

    // Over a store and a sink of which nothing is set to fail, neither is said to fail.
    ensures calm { S.calm store.old → K.calm out.old → IsTrue (is_calm_status result) }

    // No file is changed.
    ensures files { S.files store.new ≡ S.files store.old }
{
    tell(out, &check_output(alloc, names, store))
}
