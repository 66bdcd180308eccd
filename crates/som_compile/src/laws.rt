//! Laws of compiling.

ghost use Rattle.som_compile.specs.Compiling.{Compiles, CompilesClient, IsBase};
ghost use Rattle.som_model.specs.declared.limits.TheConstants.{MAX_BYTES};
ghost use Rattle.som_model.specs.declared.program.Interface.{Interface};
ghost use Rattle.som_sources.specs.Sources.{bytes_in, mains_in, names_of};
ghost use Rattle.som_sources.specs.declared.fault.TextFault.{TextFault};
ghost use Rattle.som_sources.specs.declared.source.Source.{Source};
ghost use Rattle.std.specs.Prelude.{◌≡◌, ◌≤◌, ℕ, List, Result};

/// Compiling a library's texts comes to one thing, and to no other.
pub fn compiling_law()
    ensures some { (ss : List Source) → bytes_in ss ≤ MAX_BYTES → (told : Result (List ℕ) TextFault) × Compiles ss told }
    ensures one { (ss : List Source) (a b : Result (List ℕ) TextFault) → Compiles ss a → Compiles ss b → a ≡ b }
{}

/// Compiling a client's texts comes to one thing, and to no other.
pub fn client_law()
    ensures some { (base : Interface) (ss : List Source) → IsBase base → mains_in (names_of ss) ≡ 1 → bytes_in ss ≤ MAX_BYTES → (told : Result (List ℕ) TextFault) × CompilesClient base ss told }
    ensures one { (base : Interface) (ss : List Source) (a b : Result (List ℕ) TextFault) → CompilesClient base ss a → CompilesClient base ss b → a ≡ b }
{}
