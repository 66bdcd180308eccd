//! Decodes and encodes a text: its length, and its bytes.

ghost use Rattle.std.specs.Prelude.{◌≡◌, ◌≤◌, ◌++◌, ℕ, length, IfOk, OnOk, OnErr};
ghost use Rattle.som_image_fields.specs.Fields.{Stands, Gives, done};
ghost use Rattle.som_image_fields.specs.Spelling.{text, FitsText};
ghost use Rattle.som_image_fields.specs.Reading.{text_at};

use crate::{ImageFault, Read, read_u16, write_u16};
use som_model::{List, NoMemory, Text};
use std::alloc::Global;

/// Reads a text at a place. Its bytes are copied.
#[tactic(auto, unfolding(crate::specs::Reading::text_at))]
pub fn read_text(alloc: Global, bytes: &List<u8>, place: usize) -> Result<Read<Text>, ImageFault>
    requires { place ≤ length bytes.now }
    ensures found { IfOk result (λ r. Stands bytes.now place (text r.value) r.next × FitsText r.value) }
    ensures only { (t : _) (next : ℕ) → Stands bytes.now place (text t) next → FitsText t →
        Gives result (done t next) }
    ensures exact { Gives result (text_at bytes.now place) }
{
    let len = read_u16(bytes, place)?;
    let all = bytes.as_bytes();
    let (_, rest) = all.split_at(len.next);
    let count = len.value as usize;
    if rest.len() < count {
        return Err(ImageFault::Cut { offset: all.len() });
    }
    let value = Text::from_slice(alloc, &rest[..count])?;
    Ok(Read {
        value,
        next: len.next + count,
    })
}

/// Appends a text. It is spelled in a list of its own first, so that want of memory leaves `out` as it was.
pub fn write_text(alloc: Global, out: &mut List<u8>, value: &Text) -> Result<(), NoMemory>
    requires { FitsText value.now }
    ensures ok { OnOk result (out.new ≡ out.old ++ text value.now) }
    ensures err { OnErr result (out.new ≡ out.old) }
{
    let mut spelling = List::new(alloc);
    append_text(&mut spelling, value)?;
    out.extend_from_slice(spelling.as_slice())
}

// After an error a part of the text may have been appended.
pub(crate) fn append_text(out: &mut List<u8>, value: &Text) -> Result<(), NoMemory>
    requires { FitsText value.now }
    ensures { OnOk result (out.new ≡ out.old ++ text value.now) }
{
    write_u16(out, value.len() as u16)?;
    out.extend_from_slice(value.as_slice())
}
