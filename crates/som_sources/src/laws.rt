//! The law of reading.

ghost use Rattle.som_sources.specs.Reading.{ReadsAll};
ghost use Rattle.som_sources.specs.declared.fault.TextFault.{TextFault};
ghost use Rattle.som_sources.specs.declared.source.Source.{Source};
ghost use Rattle.som_sources.specs.declared.trees.Trees.{Trees};
ghost use Rattle.std.specs.Prelude.{◌≡◌, List, Result};

/// Whatever the texts are, reading them comes to one thing, and to no other.
pub fn reading_law()
    ensures some { (ss : List Source) → (told : Result Trees TextFault) × ReadsAll ss told }
    ensures one { (ss : List Source) (a b : Result Trees TextFault) → ReadsAll ss a → ReadsAll ss b → a ≡ b }
{}
