//! Formats numbers, names of classes and types at the end of a line.

ghost use Rattle.som_model.specs.ClassNames.{class_name, name_list};
ghost use Rattle.som_show.specs.Shown.{type_name};
ghost use Rattle.std.specs.Fmt.{decimal};
ghost use Rattle.std.specs.Prelude.{◌≡◌, ◌++◌, map, OnOk};

use itoa::Buffer;
use som_model::{ClassKey, NoMemory, ValueType};

/// Writes a number at the end of a line.
pub fn add_number(line: &mut Vec<u8>, number: u64) -> Result<(), NoMemory>
    ensures { OnOk result (line.new.items ≡ line.old.items ++ decimal number) }
{
    let mut buffer = Buffer::new();
    line.extend_from_slice(buffer.format(number).as_bytes())?;
    Ok(())
}

/// Writes the name of a class: a declared one's own, and that of a derived or proxy class with those that it is made of.
#[cycle(names)]
pub fn add_class(line: &mut Vec<u8>, key: &ClassKey) -> Result<(), NoMemory>
    ensures { OnOk result (line.new.items ≡ line.old.items ++ class_name key.now) }
{
    match key {
        ClassKey::Named { module: _, name } => line.extend_from_slice(name.as_slice())?,
        ClassKey::Derived { parents } => {
            line.extend_from_slice(b"Derived(")?;
            add_classes(line, parents.as_slice())?;
            line.push(b')')?;
        }
        ClassKey::Proxy { of } => {
            line.extend_from_slice(b"Proxy(")?;
            add_class(line, of.get())?;
            line.push(b')')?;
        }
    }
    Ok(())
}

/// Writes the names of classes, with commas between.
#[cycle(names)]
pub fn add_classes(line: &mut Vec<u8>, keys: &[ClassKey]) -> Result<(), NoMemory>
    ensures { OnOk result (line.new.items ≡ line.old.items ++ name_list (map class_name keys.now)) }
{
    if let [first, others @ ..] = keys {
        add_class(line, first)?;
        for key in others {
            line.push(b',')?;
            add_class(line, key)?;
        }
    }
    Ok(())
}

/// Writes a type, as IDL spells it, or the name of its class.
pub fn add_type(line: &mut Vec<u8>, kind: &ValueType) -> Result<(), NoMemory>
    ensures { OnOk result (line.new.items ≡ line.old.items ++ type_name kind.now) }
{
    match kind {
        ValueType::Void => line.extend_from_slice(b"void")?,
        ValueType::Long => line.extend_from_slice(b"long")?,
        ValueType::Boolean => line.extend_from_slice(b"boolean")?,
        ValueType::Str => line.extend_from_slice(b"string")?,
        ValueType::Class(key) => add_class(line, key)?,
    }
    Ok(())
}

/// Writes types, with commas between.
pub fn add_types(line: &mut Vec<u8>, kinds: &[ValueType]) -> Result<(), NoMemory>
    ensures { OnOk result (line.new.items ≡ line.old.items ++ name_list (map type_name kinds.now)) }
{
    if let [first, others @ ..] = kinds {
        add_type(line, first)?;
        for kind in others {
            line.push(b',')?;
            add_type(line, kind)?;
        }
    }
    Ok(())
}
