//! Compiles the texts of a level against the flat interface of the levels below it.

ghost use Rattle.som_compile.specs.Compiling.{IsBase};
ghost use Rattle.som_level_compile.specs.CompilingLevels.{AreSizesBelow, CompilesLevel};
ghost use Rattle.som_model.specs.declared.limits.TheConstants.{MAX_BYTES};
ghost use Rattle.som_sources.specs.Reading.{Says};
ghost use Rattle.som_sources.specs.Sources.{bytes_in, mains_in, names_of};
ghost use Rattle.std.specs.Prelude.{◌≡◌, ◌≤◌, if◌then◌else◌};

use crate::building::{level_program, unbuilt};
use som_model::{Interface, List};
use som_sources::{CompileFault, Source, read_texts};
use som_towerimage::{Level, encode_level};
use std::alloc::Global;

/// The tower image of a library above levels of these sizes, or of a client of these, or what is first wrong with its
/// texts: with the first that can't be read, and else the first rule that they break or limit that they pass. One of a
/// client's texts is a main, and none of a library's.
#[tactic(auto, using(crate::proofs::LevelLaws::level_none_read, crate::proofs::LevelTrees::client_mains))]
pub fn compile_level(
    alloc: Global,
    base: &Interface,
    sizes: List<u16>,
    client: bool,
    sources: &List<Source>,
) -> Result<List<u8>, CompileFault>
    requires base { IsBase base.now }
    requires sizes { AreSizesBelow base.now sizes client }
    requires mains { mains_in (names_of sources.now) ≡ (if client then 1 else 0) }
    requires bytes { bytes_in sources.now ≤ MAX_BYTES }
    ensures { Says (CompilesLevel base.now sizes client sources.now) result }
{
    let trees = read_texts(alloc, sources)?;
    let program = match level_program(alloc, base, client, &trees) {
        Ok(program) => program,
        Err(refused) => return Err(unbuilt(refused)),
    };
    let level = Level {
        sizes,
        program,
        client,
    };
    Ok(encode_level(alloc, &level)?)
}
