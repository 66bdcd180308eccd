//! Writes the names of generated classes and methods, and tells which classes override `tag`.

ghost use Rattle.som_generator.specs.Generated.{class_name, extra_method, has_tag, numbered, only_if, own_method};
ghost use Rattle.std.specs.Prelude.{◌≡◌, ◌++◌, OnOk};

use som_model::NoMemory;
use som_show::add_number;

// Writes a word that ends with a number.
fn add_numbered(text: &mut Vec<u8>, word: &[u8], number: u32) -> Result<(), NoMemory>
    ensures { OnOk result (text.new.items ≡ text.old.items ++ numbered word.now number) }
{
    text.extend_from_slice(word)?;
    add_number(text, u64::from(number))
}

/// Writes the name of the class of a number.
pub fn add_class_name(text: &mut Vec<u8>, number: u32) -> Result<(), NoMemory>
    ensures { OnOk result (text.new.items ≡ text.old.items ++ class_name number) }
{
    add_numbered(text, b"G", number)
}

/// Writes the name of the method that the class of a number introduces in both releases.
pub fn add_own_method(text: &mut Vec<u8>, number: u32) -> Result<(), NoMemory>
    ensures { OnOk result (text.new.items ≡ text.old.items ++ own_method number) }
{
    add_numbered(text, b"m", number)
}

/// Writes the name of the method that the class of a number introduces in the second release alone.
pub fn add_extra_method(text: &mut Vec<u8>, number: u32) -> Result<(), NoMemory>
    ensures { OnOk result (text.new.items ≡ text.old.items ++ extra_method number) }
{
    add_numbered(text, b"extra", number)
}

/// Writes bytes if they are wanted.
pub fn add_if(text: &mut Vec<u8>, wanted: bool, bytes: &[u8]) -> Result<(), NoMemory>
    ensures { OnOk result (text.new.items ≡ text.old.items ++ only_if wanted bytes.now) }
{
    if wanted {
        text.extend_from_slice(bytes)?;
    }
    Ok(())
}

/// Whether the class of a number has a body of its own for `tag`.
pub fn has_tag(number: u32) -> bool
    ensures { result ≡ has_tag number }
{
    number == 0 || number % 2 == 1
}
