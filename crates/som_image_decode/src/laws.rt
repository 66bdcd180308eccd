//! States that blocks with numbers are spelled as the named blocks that they stand for, within the limits.

ghost use Rattle.som_image_fields.specs.Fitting.{FitsBlock, levels_left};
ghost use Rattle.som_image_fields.specs.SyntaxSpelling.{block};
ghost use Rattle.som_image_fields.specs.declared.syntax.WireBlock.{WireBlock};
ghost use Rattle.som_model.specs.Class.{Class};
ghost use Rattle.som_model.specs.Images as images;
ghost use Rattle.som_model.specs.declared.syntax.Block.{Block};
ghost use Rattle.som_image_decode.specs.Naming.{NoDoubles, Tells, ranges_in};
ghost use Rattle.som_image_decode.specs.BlockLimits.{BlockWithin};
ghost use Rattle.som_image_decode.specs.NamedBlocks.{BlockFrom, block_named};
ghost use Rattle.som_image_decode.specs.declared.directory.Directory.{Directory};
ghost use Rattle.som_image_fields.specs.Spelling.{FitsMethod};
ghost use Rattle.std.specs.Prelude.{◌≡◌, ℕ, List, Some, length};

/// A block that fits the directory of some classes, in which no name stands twice, is spelled as the block that it stands
/// for is among these classes; and whatever block has a spelling among them, within the limits, is named from one that fits.
pub fn named_blocks_are_spelled()
    ensures forth { (d : Directory) (cs : List Class) (b : WireBlock) → Tells d cs → NoDoubles d →
        FitsBlock (levels_left 1) (ranges_in d).classes (FitsMethod (ranges_in d)) b →
        images.block cs (block_named d b) 1 ≡ Some (block b) }
    ensures back { (d : Directory) (cs : List Class) (b : Block) (bytes : List ℕ) → Tells d cs →
        images.block cs b 1 ≡ Some bytes → BlockFrom d b bytes }
{}

/// What fits is named to a block within the limits, whatever the directory says.
pub fn named_blocks_are_within()
    ensures { (d : Directory) (b : WireBlock) →
        FitsBlock (levels_left 1) (length d.keys) (FitsMethod (ranges_in d)) b → BlockWithin (block_named d b) }
{}
