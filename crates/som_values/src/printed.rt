//! The text of a value, and the line that `print` shows of it.

ghost use Rattle.som_semantics.specs.RunText.{printed_line};
ghost use Rattle.som_semantics.specs.Values.{text_of as text_in};
ghost use Rattle.som_values.specs.Shown.{Showing, shown};
ghost use Rattle.std.specs.Fmt.{signed_decimal};
ghost use Rattle.std.specs.Prelude.{◌≡◌, ◌++◌, IfOk, OnOk};

use itoa::Buffer;
use som_model::{NoMemory, Text};
use som_objects::Cell;
use std::alloc::Global;

/// Writes the text of a value at the end of a line. After want of memory the line may end with a front of it.
pub fn add_text(line: &mut Vec<u8>, cell: &Cell) -> Result<(), NoMemory>
    ensures { OnOk result ((s : Showing) → line.new.items ≡ line.old.items ++ text_in (shown s cell.now)) }
{
    match cell {
        Cell::Long(number) => add_number(line, *number)?,
        Cell::Boolean(true) => line.extend_from_slice(b"TRUE")?,
        Cell::Boolean(false) => line.extend_from_slice(b"FALSE")?,
        Cell::Str(text) => line.extend_from_slice(text.as_slice())?,
        Cell::EmptyStr | Cell::Nil | Cell::Object(_) | Cell::Class(_) | Cell::Manager => {}
    }
    Ok(())
}

// Writes a number in decimal digits, with a sign where it is negative.
fn add_number(line: &mut Vec<u8>, number: i32) -> Result<(), NoMemory>
    ensures { OnOk result (line.new.items ≡ line.old.items ++ signed_decimal number) }
{
    let mut buffer = Buffer::new();
    line.extend_from_slice(buffer.format(number).as_bytes())?;
    Ok(())
}

/// Writes what `print` shows of a value: its text and the byte that ends a line. After want of memory the line may end with a front of it.
pub fn add_line(line: &mut Vec<u8>, cell: &Cell) -> Result<(), NoMemory>
    ensures { OnOk result ((s : Showing) → line.new.items ≡ line.old.items ++ printed_line (text_in (shown s cell.now))) }
{
    add_text(line, cell)?;
    line.push(b'\n')?;
    Ok(())
}

/// The text of a value.
pub fn text_of(alloc: Global, cell: &Cell) -> Result<Text, NoMemory>
    ensures { IfOk result (λ text. (s : Showing) → text ≡ text_in (shown s cell.now)) }
{
    let mut text = Vec::new(alloc);
    add_text(&mut text, cell)?;
    Ok(Text::from_vec(text))
}
