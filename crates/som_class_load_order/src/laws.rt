//! The law by which the kernel's four classes need only each other.

ghost use Rattle.som_class_table.specs.Loaded.{AreLoaded};
ghost use Rattle.som_class_table.specs.Making.{HaveNeeds};
ghost use Rattle.som_meta.specs.Numbering.{Numbering};
ghost use Rattle.std.specs.Prelude.{◌<◌};

/// The kernel's four classes have the needs of each other among themselves, so that a kernel can begin with these.
pub fn kernel_law()
    ensures { (k : Numbering) → AreLoaded k → HaveNeeds k (λ n. n < 4) }
{}
