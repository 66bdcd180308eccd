//! States that blocks which are well typed can be numbered, and are named back to themselves.

ghost use Rattle.som_image_fields.specs.Fitting.{FitsBlock, levels_left};
ghost use Rattle.som_model.specs.Class.{Class};
ghost use Rattle.som_model.specs.Typing.{CodePlace, class_facts};
ghost use Rattle.som_model.specs.TypedBlocks.{Scope, block_scope};
ghost use Rattle.som_model.specs.declared.syntax.Block.{Block};
ghost use Rattle.som_image_decode.specs.BlockLimits.{BlockWithin};
ghost use Rattle.som_image_decode.specs.NamedBlocks.{block_named};
ghost use Rattle.som_image_decode.specs.Naming.{Tells, ranges_in};
ghost use Rattle.som_image_encode.specs.NumberedBlocks.{block_numbered};
ghost use Rattle.som_image_encode.specs.ReadyBlocks.{BlockReady};
ghost use Rattle.som_image_decode.specs.declared.directory.Directory.{Directory};
ghost use Rattle.som_image_fields.specs.Spelling.{FitsMethod};
ghost use Rattle.std.specs.Prelude.{◌≡◌, List, length, Ok};

/// A block that is well typed where it stands, among any classes, and within the limits is ready to be numbered by the
/// directory of these classes.
pub fn typed_blocks_are_ready()
    ensures { (cs : List Class) (d : Directory) →
        (at : CodePlace) (scope after : Scope) (b : Block) → Tells d cs →
        BlockWithin b → block_scope (class_facts cs) at b scope ≡ Ok after → BlockReady d b }
{}

/// What a block that is ready is numbered to fits, and is named back to that block.
pub fn ready_blocks_turn_back()
    ensures fits { (d : Directory) (b : Block) → BlockReady d b →
        FitsBlock (levels_left 1) (length d.keys) (FitsMethod (ranges_in d)) (block_numbered d b) }
    ensures names { (d : Directory) (b : Block) → BlockReady d b → block_named d (block_numbered d b) ≡ b }
{}
