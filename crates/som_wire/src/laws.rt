//! States that spellings begin no other, that what fits can be written, and that what was written is read.

ghost use Rattle.som_image_fields.specs.Fitting.{
  FitsBlock,
  FitsExpr,
  FitsPart,
  FitsSelects,
  FitsSomeBlock,
  FitsSomePart,
  FitsSomeSelects,
  levels_left,
};
ghost use Rattle.som_wire.specs.Reading.{block_at, part_at, selects_at};
ghost use Rattle.som_image_fields.specs.SyntaxSpelling.{block, expr, part, selects};
ghost use Rattle.som_image_fields.specs.declared.syntax.WireBlock.{WireBlock};
ghost use Rattle.som_image_fields.specs.declared.syntax.WirePart.{WirePart};
ghost use Rattle.som_image_fields.specs.declared.selects.WireSelects.{WireSelects};
ghost use Rattle.som_image_fields.specs.Fields.{NoneBeginsAnother, done};
ghost use Rattle.som_image_fields.specs.Spelling.{AreShort, FitsMethod};
ghost use Rattle.som_image_fields.specs.declared.method.Ranges.{Ranges};
ghost use Rattle.std.specs.Prelude.{◌≡◌, ◌<◌, ◌≤◌, ◌^◌, ◌++◌, ℕ, List, length};

/// An expression, a block, a part or the selects of classes have at most one spelling, and none begins another.
pub fn no_spelling_begins_another()
    ensures expr { (ranges : Ranges) (left : ℕ) → AreShort ranges →
        NoneBeginsAnother expr (FitsExpr left ranges.classes (FitsMethod ranges)) }
    ensures block { (ranges : Ranges) (left : ℕ) → AreShort ranges →
        NoneBeginsAnother block (FitsBlock left ranges.classes (FitsMethod ranges)) }
    ensures part { (ranges : Ranges) (introduced : ℕ) → AreShort ranges →
        NoneBeginsAnother part (FitsPart ranges introduced) }
    ensures selects { (ranges : Ranges) (first : ℕ) → AreShort ranges →
        NoneBeginsAnother selects (FitsSelects ranges.classes (FitsMethod ranges) first) }
{}

/// What can stand somewhere, among certain classes and entries, can be written.
pub fn what_fits_can_be_written()
    ensures block { (ranges : Ranges) (left : ℕ) → AreShort ranges → left ≤ levels_left 1 → (b : WireBlock) →
        FitsBlock left ranges.classes (FitsMethod ranges) b → FitsSomeBlock b }
    ensures part { (ranges : Ranges) (introduced : ℕ) → AreShort ranges → introduced < 2 ^ 16 → (p : WirePart) →
        FitsPart ranges introduced p → FitsSomePart p }
    ensures selects { (ranges : Ranges) (first : ℕ) → AreShort ranges → (cs : List WireSelects) →
        FitsSelects ranges.classes (FitsMethod ranges) first cs → FitsSomeSelects cs }
{}

/// What was written is read again, whatever stands before it and after it.
pub fn what_was_written_is_read()
    ensures block { (ranges : Ranges) (left : ℕ) → AreShort ranges → (b : WireBlock) (before after : List ℕ) →
        FitsBlock left ranges.classes (FitsMethod ranges) b →
        block_at left ranges (before ++ block b ++ after) (length before) ≡ done b (length (before ++ block b)) }
    ensures part { (ranges : Ranges) (introduced : ℕ) → AreShort ranges → (p : WirePart) (before after : List ℕ) →
        FitsPart ranges introduced p →
        part_at ranges introduced (before ++ part p ++ after) (length before) ≡ done p (length (before ++ part p)) }
    ensures selects { (ranges : Ranges) (first : ℕ) → AreShort ranges → (cs : List WireSelects) (before after : List ℕ) →
        FitsSelects ranges.classes (FitsMethod ranges) first cs →
        selects_at ranges first (before ++ selects cs ++ after) (length before) ≡ done cs (length (before ++ selects cs)) }
{}
