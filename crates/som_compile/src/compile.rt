//! The compiler: files to the image of a library or of a client, or the first error.

ghost use Rattle.som_compile.specs.Compiling.{Compiles, CompilesClient, IsBase, building_told};
ghost use Rattle.som_model.specs.declared.limits.TheConstants.{MAX_BYTES};
ghost use Rattle.som_sources.specs.Reading.{Says, Tells};
ghost use Rattle.som_sources.specs.Sources.{bytes_in, mains_in, names_of};
ghost use Rattle.std.specs.Prelude.{◌≡◌, ◌≤◌, [], ◌∷◌, length};

use som_ast::MainFile;
use som_elab::{build_release, elaborate};
use som_image_fields::EncodeFault;
use som_model::{Interface, List};
use som_sema_drafts::Refused;
use som_sources::{CompileFault, Source, TextFault, read_texts};
use std::alloc::Global;

// What is told of texts that stand for nothing.
fn unbuilt(refused: Refused) -> CompileFault
    ensures { Tells (building_told refused) result }
{
    match refused {
        Refused::Rule(broken) => CompileFault::Text(TextFault::Rule(broken)),
        Refused::Limit { quantity, number } => {
            CompileFault::Text(TextFault::Limit { quantity, number })
        }
        Refused::NoMemory => CompileFault::NoMemory,
    }
}

// The only one of the mains.
#[tactic(auto, using(crate::proofs::ClientLaws::only_main))]
fn only_main(mains: &List<MainFile>) -> &MainFile
    requires { length mains.now ≡ 1 }
    ensures { mains.now ≡ result.now ∷ [] }
{
    &mains.as_slice()[0]
}

/// The image of the release that texts stand for, or what is first wrong with them: with the first that can't be read, and
/// else the first rule that they break or limit that they pass. None of the texts is a main.
#[tactic(auto, using(crate::proofs::CompileLaws::all_unread, crate::proofs::CompileLaws::none_built, crate::proofs::CompileLaws::one_written, crate::proofs::CompileLaws::built_fits))]
pub fn compile_library(alloc: Global, sources: &List<Source>) -> Result<List<u8>, CompileFault>
    requires no_main { mains_in (names_of sources.now) ≡ 0 }
    requires bytes { bytes_in sources.now ≤ MAX_BYTES }
    ensures { Says (Compiles sources.now) result }
{
    let trees = read_texts(alloc, sources)?;
    let release = match build_release(alloc, &trees.interfaces, &trees.bodies) {
        Ok(release) => release,
        Err(refused) => return Err(unbuilt(refused)),
    };
    match som_libimage::encode(alloc, &release) {
        Ok(image) => Ok(image),
        Err(EncodeFault::NoMemory) => Err(CompileFault::NoMemory),
    }
}

/// The image of the client program that texts stand for which are compiled against a base, or what is first wrong with them.
/// One of the texts is a main.
#[tactic(auto, using(crate::proofs::ClientLaws::client_none_read, crate::proofs::ClientLaws::client_none_built, crate::proofs::ClientLaws::client_written, som_sources::proofs::MainLaws::one_main_read, crate::proofs::ClientLaws::client_fits))]
pub fn compile_client(
    alloc: Global,
    base: &Interface,
    sources: &List<Source>,
) -> Result<List<u8>, CompileFault>
    requires base { IsBase base.now }
    requires one_main { mains_in (names_of sources.now) ≡ 1 }
    requires bytes { bytes_in sources.now ≤ MAX_BYTES }
    ensures { Says (CompilesClient base.now sources.now) result }
{
    let trees = read_texts(alloc, sources)?;
    let main = only_main(&trees.mains);
    let program = match elaborate(alloc, base, &trees.interfaces, &trees.bodies, main) {
        Ok(program) => program,
        Err(refused) => return Err(unbuilt(refused)),
    };
    match som_cliimage::encode(alloc, &program) {
        Ok(image) => Ok(image),
        Err(EncodeFault::NoMemory) => Err(CompileFault::NoMemory),
    }
}
