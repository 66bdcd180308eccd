//! States that what the generator makes is determined by the number of classes.

ghost use Rattle.som_generator.specs.declared.limits.TheConstants.{MAX_CLASSES};
ghost use Rattle.som_generator.specs.Making.{Makes};
ghost use Rattle.som_generator.specs.declared.fault.Unmade.{Unmade as Fault};
ghost use Rattle.som_generator.specs.declared.made.Made.{Made as Product};
ghost use Rattle.std.specs.Prelude.{◌≡◌, ◌≤◌, ℕ, Result};

/// What the generator's texts come to is one thing, and no other.
pub fn making_law()
    ensures some { (n : ℕ) → n ≤ MAX_CLASSES → (told : Result Product Fault) × Makes n told }
    ensures one { (n : ℕ) (a b : Result Product Fault) → Makes n a → Makes n b → a ≡ b }
{}
