//! The forms that stand for single bytes.

use crate::words::byte_of;
use crate::wrong::Wrong;
use std::alloc::Global;

/// A text with the forms of single bytes replaced: `$$`, `$xHH`, and `$.` with the end of line behind it.
pub fn single_bytes(alloc: Global, text: &[u8]) -> Result<Vec<u8>, Wrong> {
    let mut out = Vec::new(alloc);
    let mut rest = text;
    while let Some(place) = rest.iter().position(|byte| *byte == b'$') {
        let (plain, form) = rest.split_at(place);
        out.extend_from_slice(plain)?;
        rest = match form {
            [b'$', b'$', after @ ..] => {
                out.push(b'$')?;
                after
            }
            [b'$', b'x', high, low, after @ ..] => {
                out.push(byte_of(*high, *low).ok_or(Wrong::Unclear)?)?;
                after
            }
            [b'$', b'.', b'\n', after @ ..] => after,
            [b'$', b'.'] => &[],
            _ => return Err(Wrong::Unclear),
        };
    }
    out.extend_from_slice(rest)?;
    Ok(out)
}
