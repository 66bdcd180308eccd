//! The step that gets the images and the texts that a level is compiled from.

ghost use Rattle.som_cmd_steps.specs.Cause.{HasCause, IsQuiet};
ghost use Rattle.som_cmd_steps.specs.Refusing.{HasStatusIn, RefusesAs};
ghost use Rattle.som_cmd_steps.specs.Steps.{FollowsTold};
ghost use Rattle.som_cmd_tower_make.specs.Bases.{IsSoundBase};
ghost use Rattle.som_cmd_tower_make.specs.Cause.{FailsGettingTower};
ghost use Rattle.som_cmd_tower_make.specs.Statuses.{tower_make_statuses};
ghost use Rattle.som_cmd_tower_make.specs.TowerParts.{tower_in};
ghost use Rattle.som_model.specs.declared.limits.TheConstants.{MAX_BYTES};
ghost use Rattle.som_sources.specs.Sources.{bytes_in, names_of};
ghost use Rattle.std.specs.Prelude.{IfOk, length, ◌≡◌, ◌≤◌};

use crate::base::{TowerBase, read_base};
use som_cmd_sources::fetch_texts;
use som_cmd_steps::{CommandStop, fetch_all};
use som_io::Store;
use som_model::{List, Text};
use som_sources::Source;
use std::alloc::Global;

/// What a level is compiled from: the flat interface of the libraries below it, and texts.
#[derive(Drop)]
pub struct TowerParts {
    pub base: TowerBase,
    pub texts: List<Source>,
}

/// The flat interface of the libraries whose images are under some names, the lowest first, and the texts under others.
#[tactic(auto, using(crate::proofs::TowerSteps::images_missing, crate::proofs::TowerSteps::texts_missing, crate::proofs::TowerSteps::base_refused, crate::proofs::TowerSteps::all_there, crate::proofs::TowerSteps::images_fail, crate::proofs::TowerSteps::texts_fail, crate::proofs::TowerSteps::reading_fails, crate::proofs::TowerRefusals::images_absent_in, crate::proofs::TowerRefusals::texts_refused_in, crate::proofs::TowerRefusals::base_refused_in, crate::proofs::SoundBases::base_sound))]
pub(crate) fn fetch_tower<S: Store>(
    alloc: Global,
    below: &[Text],
    files: &[Text],
    store: &mut S,
) -> Result<TowerParts, CommandStop>
    requires some { 1 ≤ length below.now }
    requires few { length below.now ≤ 8 }
    ensures answer { FollowsTold (S.files store.old) result (tower_in below.now files.now) }
    ensures sound { IfOk result (λ p. IsSoundBase (length below.now) p.base) }
    ensures named { IfOk result (λ p. names_of p.texts ≡ files.now) }
    ensures bytes { IfOk result (λ p. bytes_in p.texts ≤ MAX_BYTES) }
    ensures files { S.files store.new ≡ S.files store.old }
    ensures later { S.faults store.old ≤ S.faults store.new }
    ensures cause { HasCause (FailsGettingTower (S.files store.old) below.now files.now) (S.faults store.old) (S.faults store.new) result }
    ensures calm { S.calm store.old → S.calm store.new }
    ensures quiet { S.calm store.old → IsQuiet result }
    ensures refuses { RefusesAs (HasStatusIn tower_make_statuses) result }
{
    let images = fetch_all(alloc, below, store)?;
    let texts = fetch_texts(alloc, files, store)?;
    let base = read_base(alloc, below, images.as_slice())?;
    Ok(TowerParts { base, texts })
}
