//! The command `tower make`: compiles texts against libraries one above the other, and puts the tower image.

ghost use Rattle.som_cmd_build.specs.PutEnds.{LeavesFilesTold};
ghost use Rattle.som_cmd_build.specs.PutSteps.{EndHasCause, IsQuietEnd, PutsTold};
ghost use Rattle.som_cmd_sources.specs.Compiled.{Compiled};
ghost use Rattle.som_cmd_steps.specs.Cause.{IsQuiet};
ghost use Rattle.som_cmd_steps.specs.Outcomes.{EndsAsTold, ShowsSome, StoreFails};
ghost use Rattle.som_cmd_steps.specs.Refusing.{HasStatusIn, RefusesAs};
ghost use Rattle.som_cmd_steps.specs.Status.{is_calm_status};
ghost use Rattle.som_cmd_tower_make.specs.Cause.{FailsGettingTower, FailsTowerMake};
ghost use Rattle.som_cmd_tower_make.specs.Statuses.{tower_make_statuses};
ghost use Rattle.som_cmd_tower_make.specs.TowerMakeAnswer.{CompilesTower, IsTowerMade, IsTowerMakeAnswer, has_main};
ghost use Rattle.som_cmd_tower_make.specs.TowerParts.{tower_in};
ghost use Rattle.som_compile.specs.Compiling.{IsBase};
ghost use Rattle.som_io.specs.Outside.{Rose};
ghost use Rattle.som_level_compile.specs.CompilingLevels.{AreSizesBelow};
ghost use Rattle.som_model.specs.Lists.{Mem};
ghost use Rattle.som_model.specs.declared.limits.TheConstants.{MAX_BYTES};
ghost use Rattle.som_sources.specs.Sources.{bytes_in, is_main as is_main_name, mains_in, names_of};
ghost use Rattle.som_towerimage.specs.Spelling.{most_below};
ghost use Rattle.std.specs.Prelude.{IsTrue, if◌then◌else◌, length, ◌≡◌, ◌≢◌, ◌≤◌, ◌⊎◌};

use crate::base::TowerBase;
use crate::parts::{TowerParts, fetch_tower};
use som_cmd_build::{PutEnd, put, tell_put};
use som_cmd_sources::stop_of;
use som_cmd_steps::CommandStop;
use som_io::{Sink, Store};
use som_level_compile::compile_level;
use som_model::{List, Text};
use std::alloc::Global;

fn is_main(name: &Text) -> bool
    ensures { result ≡ is_main_name name.now }
{
    name.as_slice().ends_with(b".main")
}

// Whether one of the names is that of a main.
fn has_main(names: &[Text]) -> bool
    ensures { result ≡ has_main names.now }
{
    for name in names {
        if is_main(name) {
            return true;
        }
    }
    false
}

// The tower image that the parts of a level are compiled to.
#[tactic(auto, using(crate::proofs::MakeLaws::level_refused, som_cmd_build::proofs::CompileLaws::quietly))]
fn image_of(alloc: Global, parts: TowerParts, client: bool) -> Result<List<u8>, CommandStop>
    requires base { IsBase parts.base.interface }
    requires sizes { AreSizesBelow parts.base.interface parts.base.sizes client }
    requires mains { mains_in (names_of parts.texts) ≡ (if client then 1 else 0) }
    requires bytes { bytes_in parts.texts ≤ MAX_BYTES }
    ensures compiled { Compiled (CompilesTower client parts) result }
    ensures quiet { IsQuiet result }
{
    let TowerParts { base, texts } = parts;
    let TowerBase { interface, sizes } = base;
    match compile_level(alloc, &interface, sizes, client, &texts) {
        Ok(image) => Ok(image),
        Err(fault) => Err(stop_of(alloc, &fault)),
    }
}

// Compiles the texts under some names against the libraries under others, the lowest first, and puts the tower image of the level that they
// stand for under a third: a client where one of the texts is a main, and else a library.
#[tactic(auto, using(crate::proofs::MakeLaws::parts_refused, crate::proofs::MakeLaws::image_refused, crate::proofs::MakeLaws::image_put, crate::proofs::MakeLaws::image_fails, crate::proofs::MakeLaws::put_fails, crate::proofs::TowerRefusals::image_refused_in, crate::proofs::TowerRefusals::put_refused_in, crate::proofs::TowerAnswered::parts_sizes, crate::proofs::TowerAnswered::parts_mains, crate::proofs::TowerAnswered::few_levels))]
fn put_level<S: Store>(
    alloc: Global,
    name: &Text,
    below: &[Text],
    files: &[Text],
    store: &mut S,
) -> Result<PutEnd, CommandStop>
    requires some { 1 ≤ length below.now }
    requires few { length below.now ≤ most_below (has_main files.now) }
    requires mains { mains_in files.now ≤ 1 }
    ensures puts { PutsTold (CompilesTower (has_main files.now)) (S.files store.old) name.now (tower_in below.now files.now) result (S.files store.new) }
    ensures later { S.faults store.old ≤ S.faults store.new }
    ensures cause { EndHasCause (FailsGettingTower (S.files store.old) below.now files.now) name.now (S.faults store.old) (S.faults store.new) result }
    ensures quiet { S.calm store.old → IsQuietEnd result }
    ensures refuses { RefusesAs (HasStatusIn tower_make_statuses) result }
{
    let parts = fetch_tower(alloc, below, files, store)?;
    let image = image_of(alloc, parts, has_main(files))?;
    put(alloc, name, &image, store)
}

/// Compiles the texts under some names against the libraries whose images are under others, the lowest first, puts the tower image of what
/// they stand for under a third, and answers the status: a client of these libraries where one of the texts is a main, and else a library
/// above them, without a main.
pub fn build_level<S: Store, K: Sink>(
    alloc: Global,
    name: &Text,
    below: &[Text],
    files: &[Text],
    store: &mut S,
    out: &mut K,
) -> u8
    requires some { 1 ≤ length below.now }
    requires few { length below.now ≤ most_below (has_main files.now) }
    requires mains { mains_in files.now ≤ 1 }

    // Without faults and with memory it is the answer: its text, its status, its files.
    ensures answered { result ≢ 6 → result ≢ 8 → result ≢ 10 →
        EndsAsTold (IsTowerMakeAnswer name.now below.now files.now) (S.files store.old) result (S.files store.new) (K.written out.old) (K.written out.new) }

    // It ends with one of these statuses.
    ensures statuses { Mem result tower_make_statuses }

    // The store failed in this call, and the line that says so is all that was written.
    ensures store_failed { result ≡ 6 → StoreFails (FailsTowerMake (S.files store.old) name.now below.now files.now) (S.faults store.old) (S.faults store.new) (K.written out.old) (K.written out.new) }

    // The sink failed in this call.
    ensures sink_failed { result ≡ 8 → Rose (K.faults out.old) (K.faults out.new) }

    // What was written before the sink failed or memory ran out is a front of the text.
    ensures front { (result ≡ 8) ⊎ (result ≡ 10) →
        ShowsSome (IsTowerMakeAnswer name.now below.now files.now) (FailsTowerMake (S.files store.old) name.now below.now files.now) (S.files store.old) (S.faults store.old) (S.faults store.new) (K.written out.old) (K.written out.new) }

    // No words are refused here.
    ensures words { result ≢ 2 }

    // Over a store and a sink of which nothing is set to fail, neither is said to fail.
    ensures calm { S.calm store.old → K.calm out.old → IsTrue (is_calm_status result) }

    // The files are as they were, if the status isn't 0, or hold the image under the name; or the store failed in this call, what was written says that a put of it did,
    // and the files are as such a put may leave them.
    ensures files { LeavesFilesTold (λ told. IsTowerMade told below.now files.now) (S.files store.old) name.now (S.faults store.old) (S.faults store.new) result (S.files store.new) (K.written out.old) (K.written out.new) }
{
    tell_put(out, &put_level(alloc, name, below, files, store))
}
