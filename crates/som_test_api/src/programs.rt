//! Client images, read and written again.

ghost use Rattle.som_cliimage.specs.Limits.{IsWithinLimits};
ghost use Rattle.std.specs.Prelude.{IfOk};

use crate::memory::out_of_memory;
use som_cliimage::{decode, encode};
use som_model::{ClientProgram, List};
use som_verify::program_ok;
use std::alloc::Global;
use std::test::Fail;

// One call of sayHello on a new object of the library's class Hello.
const CALL: &[u8] = b"SOMC\x01\0\x01\
    \0\x05Hello\0\0\0\x01\0\0\0\0\x01\0\0\0\0\x01\0\x08sayHello\0\0\0\
    \0\0\
    \0\0\0\x01\x0a\x2f\0\x04\0\0\x29\0\x04\0";

/// The library of CALL, and a class K of the client's own under Hello, with a variable, an introduced method g and an override of
/// sayHello. All blocks are empty.
pub const OWN: &[u8] = b"SOMC\x01\0\x01\
    \0\x05Hello\0\0\0\x01\0\0\0\0\x01\0\0\0\0\x01\0\x08sayHello\0\0\0\
    \0\x01\
    \0\x01K\0\0\0\x01\0\0\0\0\x01\0\x04\0\0\x01\0\x01g\0\0\0\
    \x01\0\x01x\x01\0\0\0\0\0\0\x01\0\x04\0\0\0\0\0\0\
    \0\0\0\0";

// The library's R introduces f, and its A and B under R; the client's C under both takes the body that B has for f. Main is empty.
const SELECTED: &[u8] = b"SOMC\x02\0\x03\
    \0\x01R\0\0\0\x01\0\0\0\0\x01\0\0\0\0\x01\0\x01f\0\0\0\
    \0\x01A\0\0\0\x01\0\0\0\0\x01\0\x04\0\0\0\
    \0\x01B\0\0\0\x01\0\0\0\0\x01\0\x04\0\0\0\
    \0\x01\
    \0\x01C\0\0\0\x01\0\0\0\0\x02\0\x05\0\x06\0\0\0\
    \0\0\0\
    \0\x01\0\x07\0\x01\0\x04\0\0\x01\
    \0\0\0\0";

/// The program that an image spells.
pub fn program_of(alloc: Global, bytes: &[u8]) -> Result<ClientProgram, Fail>
    ensures { IfOk result IsWithinLimits }
{
    let image = List::from_slice(alloc, bytes).map_err(out_of_memory)?;
    Ok(decode(alloc, &image)?)
}

// Whether a program breaks no rule, and has this image.
fn has_image(alloc: Global, program: &ClientProgram, bytes: &[u8]) -> Result<bool, Fail>
    requires { IsWithinLimits program.now }
{
    match program_ok(alloc, program) {
        Ok(()) => Ok(encode(alloc, program)?.as_slice() == bytes),
        Err(_) => Ok(false),
    }
}

// Whether an image is written again, of the program that it spells.
fn is_written_again(alloc: Global, bytes: &[u8]) -> Result<bool, Fail> {
    let program = program_of(alloc, bytes)?;
    has_image(alloc, &program, bytes)
}

#[test]
fn a_program_that_was_read_is_written_again(rt: HostRuntime) -> Result<(), Fail> {
    assert!(rt; is_written_again(rt.alloc(), CALL)?);
    assert!(rt; is_written_again(rt.alloc(), OWN)?);
    assert!(rt; is_written_again(rt.alloc(), SELECTED)?);
    Ok(())
}
