//! Compiles the generated client, decodes its image again, and checks its rules.

ghost use Rattle.som_compile.specs.Compiling.{IsBase};
ghost use Rattle.som_generator.specs.declared.limits.TheConstants.{MAX_CLASSES};
ghost use Rattle.som_generator.specs.Making.{Answers};
ghost use Rattle.som_generator.specs.Steps.{ClientComes, ClientImageComes};
ghost use Rattle.som_generator.specs.Texts.{client_texts};
ghost use Rattle.som_model.specs.Class.{interface_of};
ghost use Rattle.som_model.specs.Conforming.{ProgramOk};
ghost use Rattle.som_model.specs.Images.{client_image};
ghost use Rattle.som_model.specs.declared.limits.TheConstants.{MAX_BYTES};
ghost use Rattle.som_model.specs.declared.program.ClientProgram.{ClientProgram as Program};
ghost use Rattle.som_sources.specs.Sources.{bytes_in, mains_in, names_of};
ghost use Rattle.std.specs.Prelude.{◌≡◌, ◌≤◌, IfOk, Some};

use crate::fault::MakeFault;
use crate::libraries::fault_of;
use crate::made::Client;
use crate::sources::client_texts;
use som_cliimage::decode;
use som_compile::compile_client;
use som_image_fields::ImageFault;
use som_model::{ClientProgram, Interface, List, NoMemory, Release};
use som_sources::Source;
use som_verify::program_ok;
use som_verify_classes::VerifyFault;
use std::alloc::Global;

// The image that the texts of a client are compiled to.
#[tactic(auto, using(crate::proofs::Standing::client_uncompiled))]
fn compiled(alloc: Global, base: &Interface, texts: &List<Source>) -> Result<List<u8>, MakeFault>
    requires base { IsBase base.now }
    requires one_main { mains_in (names_of texts.now) ≡ 1 }
    requires bytes { bytes_in texts.now ≤ MAX_BYTES }
    ensures { Answers (ClientImageComes base.now texts.now) result }
{
    match compile_client(alloc, base, texts) {
        Ok(image) => Ok(image),
        Err(fault) => Err(fault_of(fault)),
    }
}

// The client program of an image that was written of one.
fn read_back(alloc: Global, image: &List<u8>) -> Result<ClientProgram, NoMemory>
    requires { (p : Program) × (client_image p ≡ Some image.now) }
    ensures { (p : Program) → client_image p ≡ Some image.now → IfOk result (λ read. read ≡ p) }
{
    match decode(alloc, image) {
        Ok(program) => Ok(program),
        Err(ImageFault::NoMemory) => Err(NoMemory),
        Err(_) => unreachable!(),
    }
}

// Looks at the rules of a client program that keeps them.
fn look_at_rules(alloc: Global, program: &ClientProgram) -> Result<(), NoMemory>
    requires { ProgramOk program.now }
{
    match program_ok(alloc, program) {
        Ok(()) => Ok(()),
        Err(VerifyFault::NoMemory) => Err(NoMemory),
        Err(VerifyFault::Rule(_)) => unreachable!(),
    }
}

// The texts of a client are compiled, and its image is read back and asked for the rules.
#[tactic(auto, using(crate::proofs::Standing::has_program, crate::proofs::Standing::program_read_conforms, crate::proofs::Standing::is_client, crate::proofs::Standing::unbuilt_client))]
fn build(alloc: Global, base: &Interface, texts: &List<Source>) -> Result<Client, MakeFault>
    requires base { IsBase base.now }
    requires one_main { mains_in (names_of texts.now) ≡ 1 }
    requires bytes { bytes_in texts.now ≤ MAX_BYTES }
    ensures { Answers (ClientComes base.now texts.now) result }
{
    let image = compiled(alloc, base, texts)?;
    let program = read_back(alloc, &image)?;
    look_at_rules(alloc, &program)?;
    Ok(Client { program, image })
}

/// The client of a release of so many classes, and its image.
pub fn make_client(alloc: Global, base: &Release, count: u32) -> Result<Client, MakeFault>
    requires few { count ≤ MAX_CLASSES }
    requires base { IsBase (interface_of base.now) }
    ensures { Answers (ClientComes (interface_of base.now) (client_texts count)) result }
{
    let base = base.interface(alloc)?;
    let texts = client_texts(alloc, count)?;
    build(alloc, &base, &texts)
}
