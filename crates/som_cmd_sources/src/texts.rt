//! The step that gets texts under names, as long as their bytes together stay within the limit.

ghost use Rattle.som_model.specs.declared.limits.TheConstants.{MAX_BYTES};
ghost use Rattle.som_sources.specs.Sources.{bytes_in, names_of};
ghost use Rattle.som_cmd_steps.specs.Cause.{HasCause, IsQuiet};
ghost use Rattle.som_cmd_steps.specs.Lines.{store_failed};
ghost use Rattle.som_cmd_steps.specs.Refusing.{HasStatusIn, RefusesAs};
ghost use Rattle.som_cmd_steps.specs.Steps.{FollowsTold};
ghost use Rattle.som_cmd_sources.specs.Getting.{FailsGettingTexts};
ghost use Rattle.som_cmd_sources.specs.Statuses.{library_statuses};
ghost use Rattle.som_cmd_sources.specs.Texts.{text_in, texts_in};
ghost use Rattle.std.specs.Prelude.{IfOk, length, ◌+◌, ◌≡◌, ◌≤◌};

use crate::text_refusals::refuse_limit;
use som_cmd_steps::{CommandStop, fetch};
use som_io::Store;
use som_model::{List, MAX_BYTES, Text};
use som_sources::Source;
use std::alloc::Global;

// The text under a name, after texts of so many bytes.
#[tactic(auto, using(crate::proofs::TextLaws::text_absent, crate::proofs::TextLaws::text_too_long, crate::proofs::TextLaws::text_got, crate::proofs::TextRefusals::text_absent_in, crate::proofs::TextRefusals::too_many_in))]
fn fetch_text<S: Store>(
    alloc: Global,
    before: usize,
    name: &Text,
    store: &mut S,
) -> Result<Source, CommandStop>
    requires { before ≤ MAX_BYTES }
    ensures answer { FollowsTold (S.files store.old) result (text_in before name.now) }
    ensures within { IfOk result (λ s. before + length s.bytes ≤ MAX_BYTES) }
    ensures named { IfOk result (λ s. s.name ≡ name.now) }
    ensures files { S.files store.new ≡ S.files store.old }
    ensures later { S.faults store.old ≤ S.faults store.new }
    ensures cause { HasCause (λ line. line ≡ store_failed name.now) (S.faults store.old) (S.faults store.new) result }
    ensures calm { S.calm store.old → S.calm store.new }
    ensures quiet { S.calm store.old → IsQuiet result }
    ensures refuses { RefusesAs (HasStatusIn library_statuses) result }
{
    let bytes = fetch(alloc, name, store)?;
    if bytes.len() > MAX_BYTES as usize - before {
        return Err(CommandStop::Refused(refuse_limit(alloc, b"bytes", MAX_BYTES)?));
    }
    Ok(Source {
        name: name.copy(alloc)?,
        bytes,
    })
}

/// The texts under names, in order, whose bytes together aren't too many.
#[tactic(auto, using(crate::proofs::TextLaws::all_got, crate::proofs::TextLaws::all_named, crate::proofs::TextLaws::text_stops, crate::proofs::TextLaws::text_fails))]
pub fn fetch_texts<S: Store>(
    alloc: Global,
    names: &[Text],
    store: &mut S,
) -> Result<List<Source>, CommandStop>
    ensures answer { FollowsTold (S.files store.old) result (texts_in names.now) }
    ensures named { IfOk result (λ ss. names_of ss ≡ names.now) }
    ensures within { IfOk result (λ ss. bytes_in ss ≤ MAX_BYTES) }
    ensures files { S.files store.new ≡ S.files store.old }
    ensures later { S.faults store.old ≤ S.faults store.new }
    ensures cause { HasCause (FailsGettingTexts (S.files store.old) names.now) (S.faults store.old) (S.faults store.new) result }
    ensures calm { S.calm store.old → S.calm store.new }
    ensures quiet { S.calm store.old → IsQuiet result }
    ensures refuses { RefusesAs (HasStatusIn library_statuses) result }
{
    let mut texts = List::new(alloc);
    let mut bytes = 0usize;
    for name in names {
        let text = fetch_text(alloc, bytes, name, store)?;
        bytes += text.bytes.len();
        texts.push(text)?;
    }
    Ok(texts)
}
