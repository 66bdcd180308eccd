//! The step that gets the library and the texts that a client is compiled from.

ghost use Rattle.som_libimage.specs.Limits.{IsWithinLimits};
ghost use Rattle.som_model.specs.Conforming.{ReleaseOk};
ghost use Rattle.som_model.specs.declared.limits.TheConstants.{MAX_BYTES};
ghost use Rattle.som_sources.specs.Sources.{bytes_in, names_of};
ghost use Rattle.som_cmd_steps.specs.Cause.{HasCause, IsQuiet};
ghost use Rattle.som_cmd_steps.specs.Refusing.{HasStatusIn, RefusesAs};
ghost use Rattle.som_cmd_steps.specs.Steps.{FollowsTold};
ghost use Rattle.som_cmd_sources.specs.Getting.{FailsGettingParts};
ghost use Rattle.som_cmd_sources.specs.Parts.{parts_in};
ghost use Rattle.som_cmd_sources.specs.Statuses.{client_statuses};
ghost use Rattle.std.specs.Prelude.{IfOk, ◌≡◌, ◌≤◌};

use crate::texts::fetch_texts;
use som_cmd_steps::{CommandStop, fetch, sound_release};
use som_io::Store;
use som_model::{List, Release, Text};
use som_sources::Source;
use std::alloc::Global;

/// What a client is compiled from: the release of a library, and texts.
#[derive(Drop)]
pub struct ClientParts {
    pub base: Release,
    pub texts: List<Source>,
}

/// The release under one name and the texts under others.
#[tactic(auto, using(crate::proofs::PartLaws::library_missing, crate::proofs::PartLaws::texts_missing, crate::proofs::PartLaws::library_refused, crate::proofs::PartLaws::all_there, crate::proofs::PartLaws::library_fails, crate::proofs::PartLaws::texts_fail, crate::proofs::PartLaws::reading_fails, crate::proofs::TextRefusals::library_absent_in, crate::proofs::TextRefusals::texts_refused_in, crate::proofs::TextRefusals::library_refused_in))]
pub fn fetch_parts<S: Store>(
    alloc: Global,
    library: &Text,
    names: &[Text],
    store: &mut S,
) -> Result<ClientParts, CommandStop>
    ensures answer { FollowsTold (S.files store.old) result (parts_in library.now names.now) }
    ensures conforms { IfOk result (λ p. ReleaseOk p.base) }
    ensures within { IfOk result (λ p. IsWithinLimits p.base) }
    ensures named { IfOk result (λ p. names_of p.texts ≡ names.now) }
    ensures bytes { IfOk result (λ p. bytes_in p.texts ≤ MAX_BYTES) }
    ensures files { S.files store.new ≡ S.files store.old }
    ensures later { S.faults store.old ≤ S.faults store.new }
    ensures cause { HasCause (FailsGettingParts (S.files store.old) library.now names.now) (S.faults store.old) (S.faults store.new) result }
    ensures calm { S.calm store.old → S.calm store.new }
    ensures quiet { S.calm store.old → IsQuiet result }
    ensures refuses { RefusesAs (HasStatusIn client_statuses) result }
{
    let bytes = fetch(alloc, library, store)?;
    let texts = fetch_texts(alloc, names, store)?;
    let base = sound_release(alloc, library, &bytes)?;
    Ok(ClientParts { base, texts })
}
