//! Whether arguments and a wanted result fit a method's signature, for calls by name.

ghost use Rattle.som_semantics.specs.State.{Heap};
ghost use Rattle.som_semantics.specs.Values.{serves as serves_in, sig_fits as sig_fits_in};
ghost use Rattle.som_values.specs.Shown.{IsSeen, all_shown, showing};
ghost use Rattle.som_values.specs.Stored.{Holds, IsClassed, IsKept, IsKnownType};
ghost use Rattle.std.specs.List.{All};
ghost use Rattle.std.specs.Prelude.{◌≡◌, ℕ, List, Some};

use crate::{Classes, all_fit};
use som_model::{Fault, Sig, ValueType};
use som_objects::{Cell, ObjectStore};

/// Whether a result of one type serves where one of another is wanted.
pub fn serves<C: Classes>(classes: &C, kind: &ValueType, wanted: &ValueType) -> bool
    requires { IsKnownType (C.keys classes.now) kind.now }
    ensures { result ≡ serves_in (C.world classes.now) kind.now wanted.now }
{
    match (kind, wanted) {
        (ValueType::Void, ValueType::Void) => true,
        (ValueType::Long, ValueType::Long) => true,
        (ValueType::Boolean, ValueType::Boolean) => true,
        (ValueType::Str, ValueType::Str) => true,
        (ValueType::Class(class), ValueType::Class(ancestor)) => classes.is_a(class, ancestor),
        _ => false,
    }
}

/// The test of a call by name: the arguments fit the parameters of a signature, and its result serves.
pub fn sig_fits<C: Classes>(
    classes: &C,
    objects: &ObjectStore,
    sig: &Sig,
    wanted: &ValueType,
    cells: &[Cell],
) -> Result<(), Fault>
    requires known { IsKnownType (C.keys classes.now) sig.now.result }
    requires kept { All (IsKept objects.now) cells.now }
    requires classed { All (IsClassed (C.keys classes.now) (C.made classes.now) objects.now) cells.now }
    ensures { (serials : List ℕ) (h : Heap) → Holds (showing (C.keys classes.now) serials) objects.now h → All (IsSeen (showing (C.keys classes.now) serials)) cells.now
        → result ≡ sig_fits_in (C.world classes.now) h (Some sig.now) wanted.now (all_shown (showing (C.keys classes.now) serials) cells.now) }
{
    if all_fit(classes, objects, sig.params.as_slice(), cells)
        && serves(classes, &sig.result, wanted)
    {
        Ok(())
    } else {
        Err(Fault::BadArguments)
    }
}
