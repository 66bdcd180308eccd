//! The words of the texts: names of classes and types, zero values, and numbers.

ghost use Rattle.som_witness.specs.Wording.{class_text, type_text, zero_text};
ghost use Rattle.std.specs.Fmt.{decimal};
ghost use Rattle.std.specs.Prelude.{◌≡◌, ◌++◌, OnOk};

use itoa::Buffer;
use som_model::{ClassKey, NoMemory, ValueType};

/// The name of a declared class; one that is made of others has none.
pub fn class_text(key: &ClassKey) -> &[u8]
    ensures { result.now ≡ class_text key.now }
{
    match key {
        ClassKey::Named { module: _, name } => name.as_slice(),
        ClassKey::Derived { .. } => b"",
        ClassKey::Proxy { .. } => b"",
    }
}

/// A type, as an interface file spells it.
pub fn type_text(kind: &ValueType) -> &[u8]
    ensures { result.now ≡ type_text kind.now }
{
    match kind {
        ValueType::Void => b"void",
        ValueType::Long => b"long",
        ValueType::Boolean => b"boolean",
        ValueType::Str => b"string",
        ValueType::Class(key) => class_text(key),
    }
}

/// The zero value of a type, as a literal.
pub fn zero_text(kind: &ValueType) -> &'static [u8]
    ensures { result.now ≡ zero_text kind.now }
{
    match kind {
        ValueType::Void => b"nil",
        ValueType::Long => b"0",
        ValueType::Boolean => b"FALSE",
        ValueType::Str => b"\"\"",
        ValueType::Class(_) => b"nil",
    }
}

/// Writes a number at the end of a text.
pub fn add_number(text: &mut Vec<u8>, number: u64) -> Result<(), NoMemory>
    ensures { OnOk result (text.new.items ≡ text.old.items ++ decimal number) }
{
    let mut buffer = Buffer::new();
    text.extend_from_slice(buffer.format(number).as_bytes())?;
    Ok(())
}
