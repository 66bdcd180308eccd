//! The command `client`: compiles texts against a library, and puts the client image.

ghost use Rattle.som_cmd_build.specs.Cause.{FailsClient};
ghost use Rattle.som_cmd_build.specs.ClientAnswer.{CompilesParts, IsClientAnswer, IsClientCompiled};
ghost use Rattle.som_cmd_build.specs.PutEnds.{LeavesFilesTold};
ghost use Rattle.som_cmd_build.specs.PutSteps.{EndHasCause, IsQuietEnd, PutsTold};
ghost use Rattle.som_io.specs.Outside.{Rose};
ghost use Rattle.som_libimage.specs.Limits.{IsWithinLimits};
ghost use Rattle.som_model.specs.Conforming.{ReleaseOk};
ghost use Rattle.som_model.specs.Lists.{Mem};
ghost use Rattle.som_model.specs.declared.limits.TheConstants.{MAX_BYTES};
ghost use Rattle.som_sources.specs.Sources.{bytes_in, mains_in, names_of};
ghost use Rattle.som_cmd_steps.specs.Cause.{IsQuiet};
ghost use Rattle.som_cmd_steps.specs.Outcomes.{EndsAsTold, ShowsSome, StoreFails};
ghost use Rattle.som_cmd_steps.specs.Refusing.{HasStatusIn, RefusesAs};
ghost use Rattle.som_cmd_steps.specs.Status.{is_calm_status};
ghost use Rattle.som_cmd_sources.specs.Parts.{parts_in};
ghost use Rattle.som_cmd_sources.specs.Compiled.{Compiled};
ghost use Rattle.som_cmd_sources.specs.Getting.{FailsGettingParts};
ghost use Rattle.som_cmd_sources.specs.Statuses.{client_statuses};
ghost use Rattle.std.specs.Prelude.{IsTrue, ◌≡◌, ◌≢◌, ◌≤◌, ◌⊎◌};

use crate::putting::{PutEnd, put, tell_put};
use som_cmd_sources::{ClientParts, fetch_parts, stop_of};
use som_cmd_steps::CommandStop;
use som_compile::compile_client;
use som_io::{Sink, Store};
use som_model::{List, Text};
use std::alloc::Global;

// The image that the parts of a client are compiled to.
#[tactic(auto, using(crate::proofs::CompileLaws::client_refused, crate::proofs::CompileLaws::client_made, crate::proofs::CompileLaws::quietly))]
fn image_of(alloc: Global, parts: &ClientParts) -> Result<List<u8>, CommandStop>
    requires conforms { ReleaseOk parts.now.base }
    requires within { IsWithinLimits parts.now.base }
    requires one_main { mains_in (names_of parts.now.texts) ≡ 1 }
    requires bytes { bytes_in parts.now.texts ≤ MAX_BYTES }
    ensures compiled { Compiled (CompilesParts parts.now) result }
    ensures quiet { IsQuiet result }
{
    let base = parts.base.interface(alloc)?;
    match compile_client(alloc, &base, &parts.texts) {
        Ok(image) => Ok(image),
        Err(fault) => Err(stop_of(alloc, &fault)),
    }
}

// Compiles the texts under names, of which one is that of a main, against the library under another, and puts the image of
// the client program that they stand for under a third.
#[tactic(auto, using(crate::proofs::CompileLaws::parts_refused, crate::proofs::CompileLaws::client_image_refused, crate::proofs::CompileLaws::client_image_put, crate::proofs::CompileLaws::client_image_fails, crate::proofs::CompileLaws::client_put_fails, som_cmd_sources::proofs::TextLaws::mains_named, crate::proofs::BuildRefusals::client_refused_in, crate::proofs::BuildRefusals::client_put_refused_in))]
fn put_client<S: Store>(
    alloc: Global,
    name: &Text,
    library: &Text,
    names: &[Text],
    store: &mut S,
) -> Result<PutEnd, CommandStop>
    requires { mains_in names.now ≡ 1 }
    ensures puts { PutsTold CompilesParts (S.files store.old) name.now (parts_in library.now names.now) result (S.files store.new) }
    ensures later { S.faults store.old ≤ S.faults store.new }
    ensures cause { EndHasCause (FailsGettingParts (S.files store.old) library.now names.now) name.now (S.faults store.old) (S.faults store.new) result }
    ensures quiet { S.calm store.old → IsQuietEnd result }
    ensures refuses { RefusesAs (HasStatusIn client_statuses) result }
{
    let parts = fetch_parts(alloc, library, names, store)?;
    let image = image_of(alloc, &parts)?;
    put(alloc, name, &image, store)
}

/// Compiles the texts under names, of which one is that of a main, against the library under another, puts the image of the client program
/// that they stand for under a third, and answers the status.
pub fn build_client<S: Store, K: Sink>(
    alloc: Global,
    name: &Text,
    library: &Text,
    names: &[Text],
    store: &mut S,
    out: &mut K,
) -> u8
    requires { mains_in names.now ≡ 1 }

    // Without faults and with memory it is the answer: its text, its status, its files.
    ensures answered { result ≢ 6 → result ≢ 8 → result ≢ 10 →
        EndsAsTold (IsClientAnswer name.now library.now names.now) (S.files store.old) result (S.files store.new) (K.written out.old) (K.written out.new) }

    // It ends with one of these statuses.
    ensures statuses { Mem result client_statuses }

    // The store failed in this call, and the line that says so is all that was written.
    ensures store_failed { result ≡ 6 → StoreFails (FailsClient (S.files store.old) name.now library.now names.now) (S.faults store.old) (S.faults store.new) (K.written out.old) (K.written out.new) }

    // The sink failed in this call.
    ensures sink_failed { result ≡ 8 → Rose (K.faults out.old) (K.faults out.new) }

    // What was written before the sink failed or memory ran out is a front of the text.
    ensures front { (result ≡ 8) ⊎ (result ≡ 10) →
        ShowsSome (IsClientAnswer name.now library.now names.now) (FailsClient (S.files store.old) name.now library.now names.now) (S.files store.old) (S.faults store.old) (S.faults store.new) (K.written out.old) (K.written out.new) }

    // No words are refused here.
    ensures words { result ≢ 2 }

    // Over a store and a sink of which nothing is set to fail, neither is said to fail.
    ensures calm { S.calm store.old → K.calm out.old → IsTrue (is_calm_status result) }

    // The files are as they were, if the status isn't 0, or hold the image under the name; or the store failed in this call, what was written says that a put of it did,
    // and the files are as such a put may leave them.
    ensures files { LeavesFilesTold (λ told. IsClientCompiled told library.now names.now) (S.files store.old) name.now (S.faults store.old) (S.faults store.new) result (S.files store.new) (K.written out.old) (K.written out.new) }
{
    tell_put(out, &put_client(alloc, name, library, names, store))
}
