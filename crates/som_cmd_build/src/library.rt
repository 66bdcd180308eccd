//! The command `library`: compiles texts to a release, and puts the library image.

ghost use Rattle.som_cmd_build.specs.Cause.{FailsLibrary};
ghost use Rattle.som_cmd_build.specs.LibraryAnswer.{AreCompiled, IsLibraryAnswer};
ghost use Rattle.som_cmd_build.specs.PutEnds.{LeavesFilesTold};
ghost use Rattle.som_cmd_build.specs.PutSteps.{EndHasCause, IsQuietEnd, PutsTold};
ghost use Rattle.som_compile.specs.Compiling.{Compiles};
ghost use Rattle.som_io.specs.Outside.{Rose};
ghost use Rattle.som_model.specs.Lists.{Mem};
ghost use Rattle.som_model.specs.declared.limits.TheConstants.{MAX_BYTES};
ghost use Rattle.som_sources.specs.Sources.{bytes_in, mains_in, names_of};
ghost use Rattle.som_cmd_steps.specs.Cause.{IsQuiet};
ghost use Rattle.som_cmd_steps.specs.Outcomes.{EndsAsTold, ShowsSome, StoreFails};
ghost use Rattle.som_cmd_steps.specs.Refusing.{HasStatusIn, RefusesAs};
ghost use Rattle.som_cmd_steps.specs.Status.{is_calm_status};
ghost use Rattle.som_cmd_sources.specs.Compiled.{Compiled};
ghost use Rattle.som_cmd_sources.specs.Getting.{FailsGettingTexts};
ghost use Rattle.som_cmd_sources.specs.Statuses.{library_statuses};
ghost use Rattle.som_cmd_sources.specs.Texts.{texts_in};
ghost use Rattle.std.specs.Prelude.{IsTrue, ◌≡◌, ◌≢◌, ◌≤◌, ◌⊎◌};

use crate::putting::{PutEnd, put, tell_put};
use som_cmd_sources::{fetch_texts, stop_of};
use som_cmd_steps::CommandStop;
use som_compile::compile_library;
use som_io::{Sink, Store};
use som_model::{List, Text};
use som_sources::Source;
use std::alloc::Global;

// The image that texts are compiled to.
#[tactic(auto, using(crate::proofs::CompileLaws::library_refused, crate::proofs::CompileLaws::quietly))]
fn image_of(alloc: Global, texts: &List<Source>) -> Result<List<u8>, CommandStop>
    requires no_main { mains_in (names_of texts.now) ≡ 0 }
    requires bytes { bytes_in texts.now ≤ MAX_BYTES }
    ensures compiled { Compiled (Compiles texts.now) result }
    ensures quiet { IsQuiet result }
{
    match compile_library(alloc, texts) {
        Ok(image) => Ok(image),
        Err(fault) => Err(stop_of(alloc, &fault)),
    }
}

// Compiles the texts under names, of which none is that of a main, and puts the image of the release that they stand for under another.
#[tactic(auto, using(crate::proofs::CompileLaws::texts_refused, crate::proofs::CompileLaws::image_refused, crate::proofs::CompileLaws::image_put, crate::proofs::CompileLaws::image_fails, crate::proofs::CompileLaws::put_fails, som_cmd_sources::proofs::TextLaws::mains_named, crate::proofs::BuildRefusals::image_refused_in, crate::proofs::BuildRefusals::put_refused_in))]
fn put_library<S: Store>(
    alloc: Global,
    name: &Text,
    names: &[Text],
    store: &mut S,
) -> Result<PutEnd, CommandStop>
    requires { mains_in names.now ≡ 0 }
    ensures puts { PutsTold Compiles (S.files store.old) name.now (texts_in names.now) result (S.files store.new) }
    ensures later { S.faults store.old ≤ S.faults store.new }
    ensures cause { EndHasCause (FailsGettingTexts (S.files store.old) names.now) name.now (S.faults store.old) (S.faults store.new) result }
    ensures quiet { S.calm store.old → IsQuietEnd result }
    ensures refuses { RefusesAs (HasStatusIn library_statuses) result }
{
    let texts = fetch_texts(alloc, names, store)?;
    let image = image_of(alloc, &texts)?;
    put(alloc, name, &image, store)
}

/// Compiles the texts under names, of which none is that of a main, puts the image of the release that they stand for under another, and answers the status.
pub fn build_library<S: Store, K: Sink>(
    alloc: Global,
    name: &Text,
    names: &[Text],
    store: &mut S,
    out: &mut K,
) -> u8
    requires { mains_in names.now ≡ 0 }

    // Without faults and with memory it is the answer: its text, its status, its files.
    ensures answered { result ≢ 6 → result ≢ 8 → result ≢ 10 →
        EndsAsTold (IsLibraryAnswer name.now names.now) (S.files store.old) result (S.files store.new) (K.written out.old) (K.written out.new) }

    // It ends with one of these statuses.
    ensures statuses { Mem result library_statuses }

    // The store failed in this call, and the line that says so is all that was written.
    ensures store_failed { result ≡ 6 → StoreFails (FailsLibrary (S.files store.old) name.now names.now) (S.faults store.old) (S.faults store.new) (K.written out.old) (K.written out.new) }

    // The sink failed in this call.
    ensures sink_failed { result ≡ 8 → Rose (K.faults out.old) (K.faults out.new) }

    // What was written before the sink failed or memory ran out is a front of the text.
    ensures front { (result ≡ 8) ⊎ (result ≡ 10) →
        ShowsSome (IsLibraryAnswer name.now names.now) (FailsLibrary (S.files store.old) name.now names.now) (S.files store.old) (S.faults store.old) (S.faults store.new) (K.written out.old) (K.written out.new) }

    // No words are refused here.
    ensures words { result ≢ 2 }

    // Over a store and a sink of which nothing is set to fail, neither is said to fail.
    ensures calm { S.calm store.old → K.calm out.old → IsTrue (is_calm_status result) }

    // The files are as they were, if the status isn't 0, or hold the image under the name; or the store failed in this call, what was written says that a put of it did,
    // and the files are as such a put may leave them.
    ensures files { LeavesFilesTold (λ told. AreCompiled told names.now) (S.files store.old) name.now (S.faults store.old) (S.faults store.new) result (S.files store.new) (K.written out.old) (K.written out.new) }
{
    tell_put(out, &put_library(alloc, name, names, store))
}
