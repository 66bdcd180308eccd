//! Library images, read, copied and written again.

ghost use Rattle.som_libimage.specs.Limits.{IsWithinLimits};
ghost use Rattle.std.specs.Prelude.{IfOk};

use crate::memory::out_of_memory;
use som_libimage::{decode, encode};
use som_model::{List, Release};
use som_verify::release_ok;
use std::alloc::Global;
use std::test::Fail;

const NO_CLASSES: &[u8] = b"SOML\x01\0\0";

/// One class, whose method sayHello prints a greeting.
pub const HELLO: &[u8] = b"SOML\x01\0\x01\
    \0\x05Hello\0\0\0\x01\0\0\0\0\x01\0\0\0\0\x01\0\x08sayHello\0\0\0\
    \0\0\0\0\0\x01\x08\x21\0\x0dHello, World!\0\0";

// M under SOMClass; A 1.2 under SOMObject with the metaclass M, which introduces f; and B under A, with f moved to A and g
// introduced. A and B have a variable each. f prints hi, g gets the variable, and B's override of f prints b.
const THREE: &[u8] = b"SOML\x01\0\x03\
    \0\x01M\0\0\0\0\0\0\0\0\x01\0\x01\0\0\0\
    \0\x01A\0\0\0\x01\0\0\0\x02\x01\0\0\x01\0\x04\0\x01\0\x01f\0\0\0\
    \0\x01B\0\0\0\0\0\0\0\0\x01\0\x05\0\0\x02\0\x01f\x02\0\x05\0\x01g\x01\x01\0\
    \0\0\0\
    \x01\0\x01x\x01\0\0\0\0\x01\x08\x21\0\x02hi\0\0\
    \x01\0\x01y\x01\x01\0\0\x01\0\x05\0\0\0\0\0\x01\x08\x21\0\x01b";

// One class of the highest version with a variable of each type: ga gets the first and sa sets it; f takes and answers the other
// types, is called by its name, and prints two texts, one of them empty. The first method of SOMObject is overridden by nothing,
// the last by a text.
const EACH_FORM: &[u8] = b"SOML\x01\0\x01\
    \0\x01P\x7f\xff\xff\xff\0\0\0\0\x01\0\0\0\0\x03\0\x02ga\0\x01\0\0\x02sa\0\0\x01\x01\0\x01f\x01\x04\0\x04\x03\x02\x03\x04\0\0\
    \x04\0\x01a\x01\0\x01b\x02\0\x01c\x03\0\x01d\x04\0\x04\
    \x01\0\x02\0\0\0\0\0\x02\x08\x21\0\x01x\x08\x21\0\0\
    \0\x02\0\0\0\0\0\0\0\0\0\0\0\x08\0\0\0\x01\x08\x21\0\x02ok";

// A 1.0 under SOMObject, which introduces add, from a long to a long, and show. It has a variable n of the type long. The body of
// add: var x : long = n; while (x < the parameter) x = x + 1; n = x; return x. The body of show: if (TRUE) print n; then add(7) on
// itself. The override of somInit returns.
const TWO: &[u8] = b"SOML\x01\0\x01\
    \0\x01A\0\0\0\x01\0\0\0\0\x01\0\0\0\0\x02\0\x03add\0\x01\x01\x01\0\x04show\0\0\0\
    \x01\0\x01n\x01\0\0\0\0\x04\x01\x01\x26\0\
    \x05\x28\x07\x24\0\x01\x24\0\0\0\0\0\x01\x02\0\x01\x28\0\x24\0\x01\x20\0\0\0\x01\
    \x03\0\x24\0\x01\x07\x24\0\x01\
    \0\0\0\0\x02\x04\x22\x01\0\0\0\x01\x08\x26\0\0\0\0\0\
    \x0a\x2f\0\x04\0\0\x25\x01\x20\0\0\0\x07\0\x01\0\0\0\0\0\0\0\x01\x06";

// R introduces f, A and B under R override it, and C under A and B takes the body of B, which is its second parent. Each body prints
// the name of its class.
const SELECTED: &[u8] = b"SOML\x02\0\x04\
    \0\x01R\0\0\0\x01\0\0\0\0\x01\0\0\0\0\x01\0\x01f\0\0\0\
    \0\x01A\0\0\0\x01\0\0\0\0\x01\0\x04\0\0\0\
    \0\x01B\0\0\0\x01\0\0\0\0\x01\0\x04\0\0\0\
    \0\x01C\0\0\0\x01\0\0\0\0\x02\0\x05\0\x06\0\0\0\
    \0\0\0\0\0\x01\x08\x21\0\x01R\0\0\
    \0\0\x01\0\x04\0\0\0\0\0\x01\x08\x21\0\x01A\
    \0\0\x01\0\x04\0\0\0\0\0\x01\x08\x21\0\x01B\
    \0\0\0\
    \0\x01\0\x07\0\x01\0\x04\0\0\x01";

/// The release that an image spells.
pub fn release_of(alloc: Global, bytes: &[u8]) -> Result<Release, Fail>
    ensures { IfOk result IsWithinLimits }
{
    let image = List::from_slice(alloc, bytes).map_err(out_of_memory)?;
    Ok(decode(alloc, &image)?)
}

// Whether a release breaks no rule, and has this image.
fn has_image(alloc: Global, release: &Release, bytes: &[u8]) -> Result<bool, Fail>
    requires { IsWithinLimits release.now }
{
    match release_ok(alloc, release) {
        Ok(()) => Ok(encode(alloc, release)?.as_slice() == bytes),
        Err(_) => Ok(false),
    }
}

// Whether the copy of a release has this image.
fn copy_has_image(alloc: Global, release: &Release, bytes: &[u8]) -> Result<bool, Fail>
    requires { IsWithinLimits release.now }
{
    let copy = release.copy(alloc).map_err(out_of_memory)?;
    has_image(alloc, &copy, bytes)
}

// Whether an image is written again, of a copy of the release that it spells.
fn is_written_again(alloc: Global, bytes: &[u8]) -> Result<bool, Fail> {
    let release = release_of(alloc, bytes)?;
    copy_has_image(alloc, &release, bytes)
}

#[test]
fn a_release_that_was_read_is_copied_and_written_again(rt: HostRuntime) -> Result<(), Fail> {
    assert!(rt; is_written_again(rt.alloc(), NO_CLASSES)?);
    assert!(rt; is_written_again(rt.alloc(), HELLO)?);
    assert!(rt; is_written_again(rt.alloc(), THREE)?);
    assert!(rt; is_written_again(rt.alloc(), EACH_FORM)?);
    assert!(rt; is_written_again(rt.alloc(), TWO)?);
    assert!(rt; is_written_again(rt.alloc(), SELECTED)?);
    Ok(())
}
