//! What is asked of a client image where it stands, beside what each one has to be.

ghost use Rattle.som_cliimage.specs.Forms.{asked_at};
ghost use Rattle.std.specs.Int.{w16, w32};
ghost use Rattle.std.specs.Prelude.{◌≡◌, ◌≤◌, length};

use som_image_fields::{ImageFault, read_u16, read_u32};
use som_model::List;

/// Numbers that a client image has to have, as one in a tower image, whose head says how many classes are below.
#[derive(Clone, Copy)]
pub struct ClientForm {
    pub base_classes: Option<u32>,
    pub statements: Option<u32>,
}

/// The form of a client image in a file of its own.
pub(crate) const ANY_FORM: ClientForm = ClientForm {
    base_classes: None,
    statements: None,
};

/// Refuses a number of classes that isn't the one asked for.
pub(crate) fn test_classes(
    bytes: &List<u8>,
    place: usize,
    asked: Option<u32>,
) -> Result<(), ImageFault>
    requires { place ≤ length bytes.now }
    ensures { result ≡ asked_at w16 asked bytes.now place }
{
    let Some(asked) = asked else {
        return Ok(());
    };
    let count = read_u16(bytes, place)?;
    if u32::from(count.value) == asked {
        Ok(())
    } else {
        Err(ImageFault::Number { offset: place })
    }
}

/// Refuses a number of statements that isn't the one asked for.
pub(crate) fn test_statements(
    bytes: &List<u8>,
    place: usize,
    asked: Option<u32>,
) -> Result<(), ImageFault>
    requires { place ≤ length bytes.now }
    ensures { result ≡ asked_at w32 asked bytes.now place }
{
    let Some(asked) = asked else {
        return Ok(());
    };
    let count = read_u32(bytes, place)?;
    if count.value == asked {
        Ok(())
    } else {
        Err(ImageFault::Number { offset: place })
    }
}
