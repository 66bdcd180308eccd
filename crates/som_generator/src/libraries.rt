//! Compiles a generated release, decodes its image again, and checks its rules.

ghost use Rattle.som_generator.specs.declared.limits.TheConstants.{MAX_CLASSES};
ghost use Rattle.som_generator.specs.Making.{Answers};
ghost use Rattle.som_generator.specs.Steps.{ImageComes, LibraryComes, fault_of};
ghost use Rattle.som_generator.specs.Texts.{library_texts};
ghost use Rattle.som_model.specs.Conforming.{ReleaseOk};
ghost use Rattle.som_model.specs.Images.{library_image};
ghost use Rattle.som_model.specs.declared.limits.TheConstants.{MAX_BYTES};
ghost use Rattle.som_model.specs.declared.program.Release.{Release as Classes};
ghost use Rattle.som_sources.specs.Sources.{bytes_in, mains_in, names_of};
ghost use Rattle.std.specs.Prelude.{◌≡◌, ◌≤◌, IfOk, Some};

use crate::Edition;
use crate::fault::{MakeFault, Unmade};
use crate::made::Library;
use crate::sources::library_texts;
use som_compile::compile_library;
use som_image_fields::ImageFault;
use som_libimage::decode;
use som_model::{List, NoMemory, Release};
use som_sources::{CompileFault, Source};
use som_verify::release_ok;
use som_verify_classes::VerifyFault;
use std::alloc::Global;

/// Why texts aren't compiled.
pub fn fault_of(fault: CompileFault) -> MakeFault
    ensures { result ≡ fault_of fault }
{
    match fault {
        CompileFault::Text(wrong) => MakeFault::Unmade(Unmade::Texts(wrong)),
        CompileFault::NoMemory => MakeFault::NoMemory,
    }
}

// The image that the texts of a library are compiled to.
#[tactic(auto, using(crate::proofs::Standing::uncompiled))]
fn compiled(alloc: Global, texts: &List<Source>) -> Result<List<u8>, MakeFault>
    requires no_main { mains_in (names_of texts.now) ≡ 0 }
    requires bytes { bytes_in texts.now ≤ MAX_BYTES }
    ensures { Answers (ImageComes texts.now) result }
{
    match compile_library(alloc, texts) {
        Ok(image) => Ok(image),
        Err(fault) => Err(fault_of(fault)),
    }
}

// The release of an image that was written of one.
fn read_back(alloc: Global, image: &List<u8>) -> Result<Release, NoMemory>
    requires { (r : Classes) × (library_image r ≡ Some image.now) }
    ensures { (r : Classes) → library_image r ≡ Some image.now → IfOk result (λ read. read ≡ r) }
{
    match decode(alloc, image) {
        Ok(release) => Ok(release),
        Err(ImageFault::NoMemory) => Err(NoMemory),
        Err(_) => unreachable!(),
    }
}

// Looks at the rules of a release that keeps them.
fn look_at_rules(alloc: Global, release: &Release) -> Result<(), NoMemory>
    requires { ReleaseOk release.now }
{
    match release_ok(alloc, release) {
        Ok(()) => Ok(()),
        Err(VerifyFault::NoMemory) => Err(NoMemory),
        Err(VerifyFault::Rule(_)) => unreachable!(),
    }
}

// The texts of a library are compiled, and its image is read back and asked for the rules.
#[tactic(auto, using(crate::proofs::Standing::has_release, crate::proofs::Standing::read_conforms, crate::proofs::Standing::is_library, crate::proofs::Standing::unbuilt_library))]
fn build(alloc: Global, texts: &List<Source>) -> Result<Library, MakeFault>
    requires no_main { mains_in (names_of texts.now) ≡ 0 }
    requires bytes { bytes_in texts.now ≤ MAX_BYTES }
    ensures { Answers (LibraryComes texts.now) result }
{
    let image = compiled(alloc, texts)?;
    let release = read_back(alloc, &image)?;
    look_at_rules(alloc, &release)?;
    Ok(Library { release, image })
}

/// A release of so many classes and its image.
pub fn make_library(alloc: Global, edition: Edition, count: u32) -> Result<Library, MakeFault>
    requires { count ≤ MAX_CLASSES }
    ensures { Answers (LibraryComes (library_texts edition count)) result }
{
    let texts = library_texts(alloc, edition, count)?;
    build(alloc, &texts)
}
