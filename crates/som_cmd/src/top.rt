//! The dispatcher of commands: does what the words ask for, and answers the status.

ghost use Rattle.som_cmd_check.specs.CheckAnswer.{first_not_kept};
ghost use Rattle.som_cmd_check.specs.CheckEnds.{TellsAccepted, TellsBreach};
ghost use Rattle.som_cmd_check.specs.ShowEnds.{ShowsProgram, ShowsRelease};
ghost use Rattle.som_cmd.specs.Cause.{FailsOn};
ghost use Rattle.som_cmd.specs.Complete.{EndsOrWants};
ghost use Rattle.som_cmd.specs.Ends.{AreChecked, AreImagesOf, AreNewest, AreNewestTasks, AreTasksOf, EndsAsTold, IsImageOf, IsImageOfClient, ShowsSome, StoreFails};
ghost use Rattle.som_cmd.specs.Generating.{GeneratesAsked, IsMadeFor};
ghost use Rattle.som_cmd.specs.PutEnds.{AreClientTextsOf, AreTextsOf, KeepsFiles, PutsProgram, PutsRelease};
ghost use Rattle.som_cmd.specs.Refused.{TellsBadWords, TellsOneLine, statuses_of};
ghost use Rattle.som_cmd.specs.Witnessing.{AreWitnessed, TellsWitnessed};
ghost use Rattle.som_cmd.specs.Towers.{AreLevelTextsOf, AreLevelsCompared, AreTowerImagesOf, IsNewestTower, PutsLevel};
ghost use Rattle.som_cmd.specs.Words.{Bad, asked};
ghost use Rattle.som_cmd_tasks.specs.Newest.{Compiled, TurnsOnNewest, programs_of};
ghost use Rattle.som_cmd_tasks.specs.TasksEnds.{KeepsAll, TellsTurns};
ghost use Rattle.som_cmd_tower_check.specs.TowerCheckAnswer.{first_lost};
ghost use Rattle.som_cmd_tower_check.specs.TowerCheckEnds.{TellsLevelAccepted, TellsLevelBreach};
ghost use Rattle.som_cmd_tower_run.specs.TowerNewest.{RunsOnNewestTower};
ghost use Rattle.som_cmd_tower_run.specs.TowerRunEnds.{RunsTowerAs, TellsLevelNotKept};
ghost use Rattle.som_cmd_generate.specs.GenerateEnds.{TellsGenerated};
ghost use Rattle.som_generator.specs.declared.made.Made.{Made};
ghost use Rattle.som_io.specs.Outside.{Rose};
ghost use Rattle.som_model.specs.Class.{interface_of};
ghost use Rattle.som_model.specs.Compatible.{CompatBreach, Compatible, first_break};
ghost use Rattle.som_model.specs.Lists.{Mem};
ghost use Rattle.som_model.specs.declared.program.ClientProgram.{ClientProgram};
ghost use Rattle.som_model.specs.declared.program.Release.{Release};
ghost use Rattle.som_sources.specs.declared.source.Source.{Source};
ghost use Rattle.som_tower.specs.Towers.{programs_above, tower_break};
ghost use Rattle.som_towerimage.specs.declared.level.Level.{Level};
ghost use Rattle.som_cmd_run.specs.Newest.{RunsOnNewest};
ghost use Rattle.som_cmd_run.specs.RunEnds.{RunsAs, TellsNotKept};
ghost use Rattle.som_cmd_steps.specs.Status.{is_calm_status};
ghost use Rattle.std.specs.Prelude.{Bool, IsTrue, List as Seq, None, Some, [], ℕ, ◌∷◌, ◌≡◌, ◌≢◌, ◌⊎◌};

use crate::words::{Command, command_of};
use som_cmd_build::{build_client, build_library};
use som_cmd_check::{check_images, show_image};
use som_cmd_generate::generate;
use som_cmd_run::run_client;
use som_cmd_steps::{line_of, say};
use som_cmd_tasks::{alone_law, run_tasks};
use som_cmd_towers::do_tower;
use som_cmd_witness::witness_images;
use som_host::HostTable;
use som_io::{Sink, Store};
use som_model::{List, Text};
use std::alloc::Global;

// Does what the words ask for: what the call comes to, in the words of the command that it asks for.
fn do_command<S: Store, K: Sink>(
    alloc: Global,
    words: &List<Text>,
    store: &mut S,
    out: &mut K,
    host: &HostTable,
) -> u8
    ensures answered { result ≢ 6 → result ≢ 8 → result ≢ 10 →
        EndsAsTold (asked words.now) (S.files store.old) result (S.files store.new) (K.written out.old) (K.written out.new) }
    ensures statuses { Mem result (statuses_of (asked words.now)) }
    ensures store_failed { result ≡ 6 → StoreFails (asked words.now) (S.files store.old) (S.faults store.old) (S.faults store.new) (K.written out.old) (K.written out.new) }
    ensures sink_failed { result ≡ 8 → Rose (K.faults out.old) (K.faults out.new) }
    ensures front { (result ≡ 8) ⊎ (result ≡ 10) → ShowsSome (asked words.now) (S.files store.old) (S.faults store.old) (S.faults store.new) (K.written out.old) (K.written out.new) }
    ensures bad_words { result ≡ 2 → asked words.now ≡ Bad }
    ensures refuses_bad_words { asked words.now ≡ Bad → result ≢ 8 → result ≢ 10 → result ≡ 2 }
    ensures bad_text { asked words.now ≡ Bad → TellsBadWords result (K.written out.old) (K.written out.new) }
    ensures one_line { TellsOneLine (asked words.now) result (K.written out.old) (K.written out.new) }
    ensures generates { GeneratesAsked (asked words.now) result (K.written out.old) (K.written out.new) }
    ensures calm { S.calm store.old → K.calm out.old → IsTrue (is_calm_status result) }
    ensures files { KeepsFiles (asked words.now) (S.files store.old) (S.faults store.old) (S.faults store.new) result (S.files store.new) (K.written out.old) (K.written out.new) }
{
    match command_of(words) {
        Command::Run {
            client,
            library,
            fuel,
            trace,
        } => run_client(alloc, client, library, fuel, trace, store, out, host),
        Command::Show { image } => show_image(alloc, image, store, out),
        Command::Check { images } => check_images(alloc, images, store, out),
        Command::Library { out: name, files } => build_library(alloc, name, files, store, out),
        Command::Client {
            out: name,
            library,
            files,
        } => build_client(alloc, name, library, files, store, out),
        Command::Tasks {
            library,
            pattern,
            rounds,
            clients,
        } => run_tasks(alloc, library, pattern, rounds, clients, store, out, host),
        Command::Witness {
            out: name,
            old,
            new,
        } => witness_images(alloc, name, old, new, store, out),
        Command::Generate { count } => generate(alloc, count, host, out),
        Command::Tower(command) => do_tower(alloc, command, store, out, host),
        Command::Bad => match line_of(alloc, b"som: bad command line") {
            Ok(line) => say(out, &line, 2),
            Err(_) => 10,
        },
    }
}

/// Does what the words ask for, with the files of a store and the text to a sink, and answers the status.
pub fn run_som<S: Store, K: Sink>(
    alloc: Global,
    words: &List<Text>,
    store: &mut S,
    out: &mut K,
    host: &HostTable,
) -> u8
    // Without faults and with memory it is the answer: its text, its status, its files.
    ensures answered { result ≢ 6 → result ≢ 8 → result ≢ 10 →
        EndsAsTold (asked words.now) (S.files store.old) result (S.files store.new) (K.written out.old) (K.written out.new) }

    // Where neither the count of the store's faults nor that of the sink's rose in this call, it is the answer, or memory ran out: then a front of
    // its text was written, and the files are as they were.
    ensures complete { (Rose (S.faults store.old) (S.faults store.new) → ⊥) → (Rose (K.faults out.old) (K.faults out.new) → ⊥) →
        EndsOrWants (asked words.now) (S.files store.old) result (S.files store.new) (K.written out.old) (K.written out.new) }

    // Where each release of a list was accepted against the one before it, a client that was compiled from texts against any of them runs on
    // the newest: what is printed is exactly the text of what the texts mean among the newest release's classes, with the fuel that is asked for,
    // and the status is that meaning's. Only want of memory, or a fault of the store or the sink that is counted, ends it otherwise.
    // And the metaclass of each of these classes, also of one that is made of others, descends from the metaclass of each of its parents.
    ensures newest { (earlier : Seq Release) (newest : Release) (place : ℕ) (texts : Seq Source) (p : ClientProgram) (fuel : ℕ) (shows : Seq ℕ → Bool) →
        AreNewest (asked words.now) (S.files store.old) earlier newest place texts p fuel shows →
        RunsOnNewest p newest fuel shows (FailsOn (S.files store.old) (asked words.now)) (S.faults store.old) (S.faults store.new) (K.faults out.old) (K.faults out.new)
        result (K.written out.old) (K.written out.new) }

    // So do clients that take turns, each compiled from texts against any of these releases: what is printed is exactly the text of their turns, by what
    // the texts of each mean among the newest release's classes, and then the line of each end. The lines of each client are those that `run` prints of it
    // with as much fuel as it has turns, whatever the others do, and its end is the one that it has alone.
    ensures newest_turns { (earlier : Seq Release) (newest : Release) (cs : Seq Compiled) (turns : Seq ℕ) →
        AreNewestTasks (asked words.now) (S.files store.old) earlier newest cs turns →
        TurnsOnNewest (programs_of cs) newest turns (FailsOn (S.files store.old) (asked words.now)) (S.faults store.old) (S.faults store.new) (K.faults out.old) (K.faults out.new)
        result (K.written out.old) (K.written out.new) }

    // Client programs that conform take turns on any release that conforms and keeps all that each was compiled against, whoever made their images.
    ensures interleaved { (library : Seq ℕ) (clients : Seq (Seq ℕ)) (r : Release) (ps : Seq ClientProgram) (turns : Seq ℕ) → AreTasksOf (asked words.now) (S.files store.old) library clients r ps turns
        → KeepsAll r ps → result ≢ 6 → result ≢ 8 → result ≢ 10 → TellsTurns r ps turns result (K.written out.old) (K.written out.new) }

    // A client program that conforms runs on any release that conforms and keeps all that it was compiled against, whoever made their images.
    ensures meaning { (client library : Seq ℕ) (p : ClientProgram) (r : Release) (fuel : ℕ) (shows : Seq ℕ → Bool) → AreImagesOf (asked words.now) (S.files store.old) client library p r fuel shows
        → Compatible p.base (interface_of r) → result ≢ 6 → result ≢ 8 → result ≢ 10 → RunsAs p r fuel shows result (K.written out.old) (K.written out.new) }

    // Of any other release that conforms the first thing is told that it doesn't keep.
    ensures incompatible { (client library : Seq ℕ) (p : ClientProgram) (r : Release) (fuel : ℕ) (shows : Seq ℕ → Bool) (b : CompatBreach) → AreImagesOf (asked words.now) (S.files store.old) client library p r fuel shows
        → first_break p.base (interface_of r) ≡ Some b → result ≢ 6 → result ≢ 8 → result ≢ 10 → TellsNotKept library b result (K.written out.old) (K.written out.new) }

    // The image of a release that conforms is shown as that release.
    ensures shown { (r : Release) → IsImageOf (asked words.now) (S.files store.old) r
        → result ≢ 6 → result ≢ 8 → result ≢ 10 → ShowsRelease r result (K.written out.old) (K.written out.new) }

    // The image of a client program that conforms is shown as that program.
    ensures shown_client { (p : ClientProgram) → IsImageOfClient (asked words.now) (S.files store.old) p
        → result ≢ 6 → result ≢ 8 → result ≢ 10 → ShowsProgram p result (K.written out.old) (K.written out.new) }

    // Images of releases that conform are accepted exactly where each release is accepted against the one before it.
    ensures accepted { (names : Seq (Seq ℕ)) (rs : Seq Release) → AreChecked (asked words.now) (S.files store.old) names rs
        → result ≢ 6 → result ≢ 8 → result ≢ 10 → TellsAccepted rs result (K.written out.old) (K.written out.new) }

    // Of any others the first thing is told that a release doesn't keep of the one before it.
    ensures breach { (names : Seq (Seq ℕ)) (rs : Seq Release) (number : ℕ) (b : CompatBreach) → AreChecked (asked words.now) (S.files store.old) names rs
        → first_not_kept rs ≡ Some (number, b)
        → result ≢ 6 → result ≢ 8 → result ≢ 10 → TellsBreach names number b result (K.written out.old) (K.written out.new) }

    // Texts that stand for a release are compiled to its image, which then stands under the name; no other file is changed.
    ensures compiled { (name : Seq ℕ) (r : Release) → AreTextsOf (asked words.now) (S.files store.old) name r
        → result ≢ 6 → result ≢ 8 → result ≢ 10 → PutsRelease (S.files store.old) name r result (S.files store.new) (K.written out.old) (K.written out.new) }

    // Texts that stand for a client program against the release of an image are compiled to its image, which then stands under the name.
    ensures client_compiled { (name : Seq ℕ) (p : ClientProgram) → AreClientTextsOf (asked words.now) (S.files store.old) name p
        → result ≢ 6 → result ≢ 8 → result ≢ 10 → PutsProgram (S.files store.old) name p result (S.files store.new) (K.written out.old) (K.written out.new) }

    // Of an older and a newer release that conform is told that the newer one is accepted, exactly where it keeps all; else that a class has another version, where that is broken first;
    // else the breach and the texts of the client that shows it, or that it has none, and the client's image stands then under the name. No other file is changed.
    ensures witnessed { (name older newer : Seq ℕ) (o n : Release) → AreWitnessed (asked words.now) (S.files store.old) name older newer o n
        → result ≢ 6 → result ≢ 8 → result ≢ 10 → TellsWitnessed o n (S.files store.old) name result (S.files store.new) (K.written out.old) (K.written out.new) }

    // So it is with libraries that stand on others, up to eight levels, each level with releases of its own. Where the lists of releases are an accepted tower: each member was
    // made against members of the lists below it, and keeps, with the levels of its own below it, what the one before it promised with those below that one: a client of the
    // tower that was compiled from texts against any members, one of each list, runs on the newest of all. What is printed is exactly the text of what the texts mean among the
    // classes of these, with the fuel that is asked for, and the status is that meaning's. Only want of memory, or a fault of the store or the sink that is counted, ends it
    // otherwise. And the metaclass of each of these classes descends from the metaclass of each of its parents.
    ensures tower_newest { (earlier : Seq Release) (base : Release) (lists : Seq (Seq Level)) (newest : Seq Level) (texts : Seq Source) (c : Level) (fuel : ℕ) →
        IsNewestTower (asked words.now) (S.files store.old) earlier base lists newest texts c fuel →
        RunsOnNewestTower base newest c fuel (FailsOn (S.files store.old) (asked words.now)) (S.faults store.old) (S.faults store.new) (K.faults out.old) (K.faults out.new)
        result (K.written out.old) (K.written out.new) }

    // A client of a tower that conforms runs on any levels that conform, where each level and the client is kept by those below it, whoever made their images.
    ensures tower_meaning { (below : Seq (Seq ℕ)) (base : Release) (uppers : Seq Level) (c : Level) (fuel : ℕ) → AreTowerImagesOf (asked words.now) (S.files store.old) below base uppers c fuel
        → tower_break (interface_of base ∷ []) (programs_above uppers c) ≡ None → result ≢ 6 → result ≢ 8 → result ≢ 10 → RunsTowerAs base uppers c fuel result (K.written out.old) (K.written out.new) }

    // Of any other levels that conform the first thing is told that one doesn't keep of what stands above it.
    ensures tower_incompatible { (below : Seq (Seq ℕ)) (base : Release) (uppers : Seq Level) (c : Level) (fuel level : ℕ) (b : CompatBreach) → AreTowerImagesOf (asked words.now) (S.files store.old) below base uppers c fuel
        → tower_break (interface_of base ∷ []) (programs_above uppers c) ≡ Some (level, b) → result ≢ 6 → result ≢ 8 → result ≢ 10 → TellsLevelNotKept below level b result (K.written out.old) (K.written out.new) }

    // Of two libraries that stand above as many levels and conform the newer one is accepted exactly where it keeps, with the levels of its own, all that the older one promises with those below that.
    ensures tower_accepted { (name : Seq ℕ) (o n : Level) → AreLevelsCompared (asked words.now) (S.files store.old) name o n
        → result ≢ 6 → result ≢ 8 → result ≢ 10 → TellsLevelAccepted o n result (K.written out.old) (K.written out.new) }

    // Of any others the first thing is told that the newer one doesn't keep.
    ensures tower_breach { (name : Seq ℕ) (o n : Level) (found : ℕ × CompatBreach) → AreLevelsCompared (asked words.now) (S.files store.old) name o n → first_lost o n ≡ Some found
        → result ≢ 6 → result ≢ 8 → result ≢ 10 → TellsLevelBreach name found.1 result (K.written out.old) (K.written out.new) }

    // Texts that stand for a level, or for a client of a tower, against the flat interface of levels that stand on one another are compiled to its tower image, which then stands under the name.
    ensures tower_compiled { (name : Seq ℕ) (l : Level) → AreLevelTextsOf (asked words.now) (S.files store.old) name l
        → result ≢ 6 → result ≢ 8 → result ≢ 10 → PutsLevel (S.files store.old) name l result (S.files store.new) (K.written out.old) (K.written out.new) }

    // What the generator makes of so many classes, and its client comes to on the second release, is printed, with that run's status.
    ensures generated { (n : ℕ) (m : Made) → IsMadeFor (asked words.now) n m → result ≢ 8 → result ≢ 10 → TellsGenerated n m result (K.written out.old) (K.written out.new) }

    // Also over a store that tells no files `generate` is its answer, or a front of that text where the sink failed or memory ran out.
    ensures generates { GeneratesAsked (asked words.now) result (K.written out.old) (K.written out.new) }

    // Each command ends with one of these statuses.
    ensures statuses { Mem result (statuses_of (asked words.now)) }

    // The store failed in this call, and what was written says so: one line, before which `witness` has told its own where its put failed.
    ensures store_failed { result ≡ 6 → StoreFails (asked words.now) (S.files store.old) (S.faults store.old) (S.faults store.new) (K.written out.old) (K.written out.new) }

    // The sink failed in this call.
    ensures sink_failed { result ≡ 8 → Rose (K.faults out.old) (K.faults out.new) }

    // What was written before the sink failed or memory ran out is a front of the text.
    ensures front { (result ≡ 8) ⊎ (result ≡ 10) → ShowsSome (asked words.now) (S.files store.old) (S.faults store.old) (S.faults store.new) (K.written out.old) (K.written out.new) }

    // Words of no form are refused as such, and no others are.
    ensures bad_words { result ≡ 2 → asked words.now ≡ Bad }
    ensures refuses_bad_words { asked words.now ≡ Bad → result ≢ 8 → result ≢ 10 → result ≡ 2 }

    // That is told by one line, which is all that is written.
    ensures bad_text { asked words.now ≡ Bad → TellsBadWords result (K.written out.old) (K.written out.new) }

    // A run that is refused is told by one line alone, and so are turns.
    ensures one_line { TellsOneLine (asked words.now) result (K.written out.old) (K.written out.new) }

    // Over a store and a sink of which nothing is set to fail, neither is said to fail.
    ensures calm { S.calm store.old → K.calm out.old → IsTrue (is_calm_status result) }

    // No file is changed, but by `library`, `client`, `witness` and `tower make`, which put an image at status 0; or the store failed in this call, what was written says that their put did,
    // and the files are as such a put may leave them.
    ensures files { KeepsFiles (asked words.now) (S.files store.old) (S.faults store.old) (S.faults store.new) result (S.files store.new) (K.written out.old) (K.written out.new) }
{
    alone_law();
    do_command(alloc, words, store, out, host)
}
