//! Decodes whole blocks, whose statements nest up to a limit.

ghost use Rattle.som_image_fields.specs.Fields.{Gives};
ghost use Rattle.som_image_fields.specs.Fitting.{levels_left};
ghost use Rattle.som_model.specs.declared.limits.TheConstants.{MAX_NESTING};
ghost use Rattle.som_wire.specs.Reading.{block_at};
ghost use Rattle.som_image_decode.specs.NamedBlocks.{block_named};
ghost use Rattle.som_image_decode.specs.Naming.{ranges_in};
ghost use Rattle.som_image_bodies.specs.Naming.{naming};
ghost use Rattle.std.specs.Prelude.{◌≡◌, ◌+◌, ◌≤◌, length, IfOk};

use crate::stmt::read_statements;
use som_image_decode::Directory;
use som_image_fields::{ImageFault, Ranges, Read};
use som_model::{Block, List, MAX_NESTING};
use std::alloc::Global;

/// Reads a block at a place to the block that it stands for, whose statements have this level: 1 in a body, and at most one
/// more than may nest.
pub fn read_block(
    alloc: Global,
    bytes: &List<u8>,
    place: usize,
    directory: &Directory,
    ranges: &Ranges,
    level: u8,
) -> Result<Read<Block>, ImageFault>
    requires place { place ≤ length bytes.now }
    requires entries { length ranges.now.entries ≡ ranges.now.classes }
    requires ranges { ranges.now ≡ ranges_in directory.now }
    requires least { 1 ≤ level }
    requires most { level ≤ MAX_NESTING + 1 }
    ensures exact { Gives result (naming (block_named directory.now) (block_at (levels_left level) ranges.now bytes.now place)) }
    ensures next { IfOk result (λ r. r.next ≤ length bytes.now) }
{
    read_statements(
        alloc,
        bytes,
        place,
        directory,
        ranges,
        MAX_NESTING as u8 + 1 - level,
    )
}
