//! States that a field has one spelling at most, which begins no other.

ghost use Rattle.std.specs.Prelude.{ℕ, ◌<◌, ◌^◌, Bool};
ghost use Rattle.std.specs.Int.{w8, w16, w32};
ghost use Rattle.som_image_fields.specs.Fields.{NoneBeginsAnother};
ghost use Rattle.som_image_fields.specs.Spelling as spelling;
ghost use Rattle.som_image_fields.specs.Spelling.{FitsText, FitsKind, FitsSig, FitsEntry, FitsFace, FitsSomeRanges};

/// A field has at most one spelling, and none begins another: so what was written is read again, whatever follows it.
pub fn no_spelling_begins_another()
    ensures byte { NoneBeginsAnother (spelling.number w8) (λ n. n < 2 ^ 8) }
    ensures short { NoneBeginsAnother (spelling.number w16) (λ n. n < 2 ^ 16) }
    ensures long { NoneBeginsAnother (spelling.number w32) (λ n. n < 2 ^ 32) }
    ensures text { NoneBeginsAnother spelling.text FitsText }
    ensures kind { (classes : ℕ) (is_result : Bool) → classes < 2 ^ 16 →
        NoneBeginsAnother spelling.kind (FitsKind classes is_result) }
    ensures sig { (classes : ℕ) → classes < 2 ^ 16 → NoneBeginsAnother spelling.sig (FitsSig classes) }
    ensures entry { (classes : ℕ) → classes < 2 ^ 16 → NoneBeginsAnother spelling.entry (FitsEntry classes) }
    ensures face { (classes : ℕ) → classes < 2 ^ 16 → NoneBeginsAnother spelling.face (FitsFace classes) }
    ensures method { NoneBeginsAnother spelling.method FitsSomeRanges }
{}
