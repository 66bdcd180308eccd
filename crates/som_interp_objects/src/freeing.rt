//! The end of a task's object.

ghost use Rattle.som_interp_objects.specs.Making.{ended};
ghost use Rattle.som_semantics.specs.State.{Heap, Object};
ghost use Rattle.som_model.specs.declared.key.ClassKey.{ClassKey};
ghost use Rattle.som_objects.specs.Objects.{IsKnown, KeepsKnown};
ghost use Rattle.som_interp_state.specs.Holding.{Holding};
ghost use Rattle.som_interp_state.specs.Settings.{Linked};
ghost use Rattle.som_interp_state.specs.Stored.{Spares};
ghost use Rattle.som_values.specs.Shown.{IsMade, place_of};
ghost use Rattle.som_interp_objects.specs.Acting.{Becomes};
ghost use Rattle.som_interp_objects.specs.Statics.{Statics};
ghost use Rattle.std.specs.Prelude.{◌≡◌, ℕ, Bool, List as Seq, OnErr, length};

use som_model::Fault;
use som_objects::{ObjRef, ObjectStore};
use som_values::Stopped;

/// Ends an object of a task, or answers the fault Freed.
pub fn free(objects: &mut ObjectStore, object: &ObjRef) -> Result<(), Stopped>
    requires { IsKnown objects.old object.now }
    ensures means { (l : Linked) (made : ClassKey → Bool) (xs : Seq ℕ) (statics : Statics) (h : Heap) → Holding l made xs objects.old statics h → IsMade xs object.now.serial
        → Becomes l made xs objects.new statics result (ended (Object (place_of xs object.now.serial)) h) }
    ensures err { OnErr result (objects.new ≡ objects.old) }
    ensures others { (ys : Seq ℕ) → (IsMade ys object.now.serial → ⊥) → Spares ys objects.old objects.new }
    ensures keeps { KeepsKnown objects.old objects.new }
    ensures count { length objects.new ≡ length objects.old }
{
    match objects.free(object) {
        Ok(()) => Ok(()),
        Err(_) => Err(Stopped::Fault(Fault::Freed)),
    }
}
