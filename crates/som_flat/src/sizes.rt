//! How many classes each level has.

ghost use Rattle.som_compat_levels.specs.Conditions.{IsWithinCounts};
ghost use Rattle.som_flat_laws.specs.Flat.{sizes_of as sizes_in};
ghost use Rattle.som_model.specs.Lists.{Mem};
ghost use Rattle.som_model.specs.declared.limits.TheConstants.{MAX_LIBRARY_CLASSES};
ghost use Rattle.som_model.specs.declared.program.Interface.{Interface as Faces};
ghost use Rattle.std.specs.Prelude.{◌≡◌, ◌≤◌, IfOk, length};

use som_model::{Interface, List, NoMemory};
use std::alloc::Global;

/// How many classes each level has, the lowest first.
pub fn sizes_of(alloc: Global, levels: &List<Interface>) -> Result<List<u16>, NoMemory>
    requires { (i : Faces) → Mem i levels.now → IsWithinCounts i }
    ensures { IfOk result (λ sizes. sizes ≡ sizes_in levels.now) }
{
    let mut sizes = List::new(alloc);
    for level in levels.as_slice() {
        sizes.push(size_of(level))?;
    }
    Ok(sizes)
}

fn size_of(level: &Interface) -> u16
    requires { length level.now.classes ≤ MAX_LIBRARY_CLASSES }
    ensures { result ≡ length level.now.classes }
{
    level.classes.len() as u16
}
