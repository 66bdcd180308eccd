//! States that no bytes are decoded as want of memory, so the line of a fault has a number from 1 on.

ghost use Rattle.som_cliimage.specs.Programs.{client_at};
ghost use Rattle.som_image_fields.specs.declared.fault.ImageFault.TheVariants as faults;
ghost use Rattle.som_libimage.specs.Libraries.{library_at};
ghost use Rattle.std.specs.Prelude.{Err, List, ℕ, ◌≡◌};

/// No bytes are read as want of memory, so a line that tells a fault of bytes has one of the numbers from 1 on.
pub fn fault_law()
    ensures library { (bytes : List ℕ) → library_at bytes ≡ Err faults.NoMemory → ⊥ }
    ensures client { (bytes : List ℕ) → client_at bytes ≡ Err faults.NoMemory → ⊥ }
{}
