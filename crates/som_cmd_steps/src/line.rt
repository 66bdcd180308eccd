//! Makes texts of lines from fixed bytes and a name.

ghost use Rattle.std.specs.Prelude.{IfOk, [], ◌++◌, ◌∷◌, ◌≡◌};

use som_model::{NoMemory, Text};
use std::alloc::Global;

/// A line of a fixed front and a name.
pub fn named_line(alloc: Global, front: &[u8], name: &Text) -> Result<Text, NoMemory>
    ensures { IfOk result (λ line. line ≡ front.now ++ name.now ++ 10 ∷ []) }
{
    let mut line = Vec::new(alloc);
    line.extend_from_slice(front)?;
    line.extend_from_slice(name.as_slice())?;
    line.push(b'\n')?;
    Ok(Text::from_vec(line))
}

/// A line with this text.
pub fn line_of(alloc: Global, text: &[u8]) -> Result<Text, NoMemory>
    ensures { IfOk result (λ line. line ≡ text.now ++ 10 ∷ []) }
{
    let mut line = Vec::new(alloc);
    line.extend_from_slice(text)?;
    line.push(b'\n')?;
    Ok(Text::from_vec(line))
}
