//! Formats the release order of a class as lines, one for each entry with its place.

ghost use Rattle.som_show.specs.Shown.{entry_line, entry_lines, entry_text, method_text, way_text};
ghost use Rattle.std.specs.Prelude.{◌≡◌, ◌++◌, IfOk, OnOk};

use crate::name::{add_class, add_number, add_type, add_types};
use som_model::{Entry, List, NoMemory, Sig, Text, Way};
use std::alloc::Global;

// A method's result, name and parameter types.
fn add_method(line: &mut Vec<u8>, name: &Text, sig: &Sig) -> Result<(), NoMemory>
    ensures { OnOk result (line.new.items ≡ line.old.items ++ method_text name.now sig.now) }
{
    add_type(line, &sig.result)?;
    line.push(b' ')?;
    line.extend_from_slice(name.as_slice())?;
    line.push(b'(')?;
    add_types(line, sig.params.as_slice())?;
    line.push(b')')?;
    Ok(())
}

fn add_way(line: &mut Vec<u8>, way: Way) -> Result<(), NoMemory>
    ensures { OnOk result (line.new.items ≡ line.old.items ++ way_text way) }
{
    match way {
        Way::Offset => Ok(()),
        Way::Lookup => Ok(line.extend_from_slice(b" namelookup")?),
    }
}

fn add_entry(line: &mut Vec<u8>, entry: &Entry) -> Result<(), NoMemory>
    ensures { OnOk result (line.new.items ≡ line.old.items ++ entry_text entry.now) }
{
    match entry {
        Entry::Introduced { name, sig, way } => {
            add_method(line, name, sig)?;
            add_way(line, *way)
        }
        Entry::Moved { name, to } => {
            line.extend_from_slice(name.as_slice())?;
            line.extend_from_slice(b" -> ")?;
            add_class(line, to)
        }
    }
}

// An entry at its place.
fn shown_entry(alloc: Global, place: usize, entry: &Entry) -> Result<Text, NoMemory>
    ensures { IfOk result (λ line. line ≡ entry_line place entry.now) }
{
    let mut line = Vec::new(alloc);
    line.extend_from_slice(b"  ")?;
    add_number(&mut line, place as u64)?;
    line.push(b' ')?;
    add_entry(&mut line, entry)?;
    line.push(b'\n')?;
    Ok(Text::from_vec(line))
}

/// The lines of a class's entries, after those that are there.
pub fn add_entries(alloc: Global, lines: &mut List<Text>, entries: &[Entry]) -> Result<(), NoMemory>
    ensures { OnOk result (lines.new ≡ lines.old ++ entry_lines 0 entries.now) }
{
    for (place, entry) in entries.iter().enumerate() {
        lines.push(shown_entry(alloc, place, entry)?)?;
    }
    Ok(())
}
