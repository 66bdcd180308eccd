//! Encodes whole blocks, as those of bodies and of mains.

ghost use Rattle.som_image_fields.specs.Fitting.{FitsSomeBlock};
ghost use Rattle.som_image_fields.specs.SyntaxSpelling.{block};
ghost use Rattle.std.specs.Prelude.{◌≡◌, ◌++◌, OnOk, OnErr};

use crate::write_stmt::append_block;
use som_image_fields::WireBlock;
use som_model::{List, NoMemory};
use std::alloc::Global;

/// Appends a block. It is spelled in a list of its own first, so that want of memory leaves `out` as it was.
pub fn write_block(alloc: Global, out: &mut List<u8>, value: &WireBlock) -> Result<(), NoMemory>
    requires { FitsSomeBlock value.now }
    ensures ok { OnOk result (out.new ≡ out.old ++ block value.now) }
    ensures err { OnErr result (out.new ≡ out.old) }
{
    let mut spelling = List::new(alloc);
    append_block_of_body(alloc, &mut spelling, value)?;
    out.extend_from_slice(spelling.as_slice())
}

/// Appends a block whose statements have level 1. After an error a part of it may have been appended.
#[tactic(auto, using(crate::proofs::Fits::some_block))]
pub(crate) fn append_block_of_body(
    alloc: Global,
    out: &mut List<u8>,
    value: &WireBlock,
) -> Result<(), NoMemory>
    requires { FitsSomeBlock value.now }
    ensures { OnOk result (out.new ≡ out.old ++ block value.now) }
{
    append_block(alloc, out, value)
}
