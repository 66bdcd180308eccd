//! The class of a live object.

ghost use Rattle.som_semantics.specs.State.{Heap};
ghost use Rattle.som_interp_state.specs.Named.{HasClassOf, HasOwner, IsLive, IsMadeClass};
ghost use Rattle.som_values.specs.Shown.{IsSeenRef, shown_ref, showing};
ghost use Rattle.som_values.specs.Stored.{Holds};
ghost use Rattle.std.specs.Prelude.{ℕ, List};

use som_interp_state::Runtime;
use som_objects::ObjectStore;
use som_tables::ClassNo;
use som_values::{Reference, class_of};

/// The class of an object that isn't freed.
pub(crate) fn live_class<R: Runtime>(runtime: &R, objects: &ObjectStore, me: Reference) -> ClassNo
    requires me { HasOwner (R.linked runtime.now) (R.made runtime.now) objects.now me }
    requires live { IsLive objects.now me }
    ensures means { (xs : List ℕ) (h : Heap) → Holds (showing (R.linked runtime.now).keys xs) objects.now h → IsSeenRef (showing (R.linked runtime.now).keys xs) me
        → HasClassOf (R.linked runtime.now) h (shown_ref (showing (R.linked runtime.now).keys xs) me) result }
    ensures made { IsMadeClass (R.linked runtime.now) (R.made runtime.now) result }
{
    runtime.know();
    match class_of(runtime, objects, me) {
        Ok(class) => class,
        Err(_) => unreachable!(),
    }
}
