//! A law of compiling levels.

ghost use Rattle.som_compile.specs.Compiling.{IsBase};
ghost use Rattle.som_level_compile.specs.CompilingLevels.{AreSizesBelow, CompilesLevel};
ghost use Rattle.som_model.specs.declared.limits.TheConstants.{MAX_BYTES};
ghost use Rattle.som_model.specs.declared.program.Interface.{Interface};
ghost use Rattle.som_sources.specs.Sources.{bytes_in, mains_in, names_of};
ghost use Rattle.som_sources.specs.declared.fault.TextFault.{TextFault};
ghost use Rattle.som_sources.specs.declared.source.Source.{Source};
ghost use Rattle.std.specs.Prelude.{◌≡◌, ◌≤◌, ℕ, Bool, List, Result, if◌then◌else◌};

/// Compiling a level's texts comes to one thing, and to no other.
pub fn level_law()
    ensures some { (base : Interface) (sizes : List ℕ) (client : Bool) (ss : List Source) → IsBase base → AreSizesBelow base sizes client →
        mains_in (names_of ss) ≡ (if client then 1 else 0) → bytes_in ss ≤ MAX_BYTES →
        (told : Result (List ℕ) TextFault) × CompilesLevel base sizes client ss told }
    ensures one { (base : Interface) (sizes : List ℕ) (client : Bool) (ss : List Source) (a b : Result (List ℕ) TextFault) →
        CompilesLevel base sizes client ss a → CompilesLevel base sizes client ss b → a ≡ b }
{}
