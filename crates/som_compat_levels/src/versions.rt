//! Checks that a class keeps its version (K2), and that its release order begins the new one (K4).

ghost use Rattle.som_compat.specs.Told.{told_by};
ghost use Rattle.som_compat.specs.Views.{shown};
ghost use Rattle.som_model.specs.Compatible.{k2, k4, order_of};
ghost use Rattle.som_model.specs.Lists.{first};
ghost use Rattle.som_model.specs.declared.limits.TheConstants.{MAX_ENTRIES};
ghost use Rattle.std.specs.Prelude.{◌≡◌, ◌≤◌, length, option_copied, slice_get};

use som_compat::Breach;
use som_model::{ClassFace, Text};
use som_order::{entry_at, is_prefix, name_of};

/// K2: the major version is the same, and the new minor one isn't lower.
pub fn keeps_version<'a>(class: &'a ClassFace, other: &ClassFace) -> Result<(), Breach<'a>>
    ensures { told_by result ≡ first (k2 (shown class.now) (shown other.now)) }
{
    if class.major == other.major && class.minor <= other.minor {
        Ok(())
    } else {
        Err(Breach {
            rule: 2,
            class: &class.name,
            name: None,
            place: 0,
        })
    }
}

/// K4: the old release order begins the new one.
pub fn keeps_order<'a>(class: &'a ClassFace, other: &ClassFace) -> Result<(), Breach<'a>>
    requires old { length class.now.entries ≤ MAX_ENTRIES }
    requires new { length other.now.entries ≤ MAX_ENTRIES }
    ensures { told_by result ≡ first (k4 (shown class.now) (shown other.now)) }
{
    match is_prefix(&class.entries, &other.entries) {
        None => Ok(()),
        Some(place) => Err(Breach {
            rule: 4,
            class: &class.name,
            name: entry_name_at(class, place),
            place: place as u32,
        }),
    }
}

fn entry_name_at(face: &ClassFace, place: u16) -> Option<&Text>
    ensures { option_copied result ≡ slice_get (order_of (shown face.now)) place }
{
    match entry_at(face, place) {
        Some(entry) => Some(name_of(entry)),
        None => None,
    }
}
