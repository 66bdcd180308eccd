//! The class of what a reference refers to.

ghost use Rattle.som_interp_objects.specs.Making.{IsInUse};
ghost use Rattle.som_semantics.specs.State.{Heap};
ghost use Rattle.som_values.specs.Shown.{IsNumbered, key_of, shown_ref, showing};
ghost use Rattle.som_values.specs.Stored.{IsClassOf};
ghost use Rattle.som_interp_objects.specs.Acting.{Acts};
ghost use Rattle.som_interp_objects.specs.Statics.{Statics};
ghost use Rattle.std.specs.Prelude.{◌≡◌, ℕ, IfOk, List as Seq, Some, true};

use som_interp_state::Runtime;
use som_model::Fault;
use som_objects::ObjectStore;
use som_tables::ClassNo;
use som_values::Reference;

/// The class of what a reference refers to, which has a number and is made, or the fault Freed.
pub fn class_of<R: Runtime>(
    runtime: &R,
    objects: &ObjectStore,
    reference: Reference,
) -> Result<ClassNo, Fault>
    requires { IsInUse (R.linked runtime.now) (R.made runtime.now) objects.now reference }
    ensures means { (statics : Statics) (xs : Seq ℕ) (h : Heap) → Acts (R.linked runtime.now) (R.made runtime.now) objects.now statics (Some reference) xs h
        → IsClassOf (R.linked runtime.now).keys (R.linked runtime.now).world h (shown_ref (showing (R.linked runtime.now).keys xs) reference) result }
    ensures numbered { IfOk result (IsNumbered (R.linked runtime.now).keys) }
    ensures made { IfOk result (λ class. R.made runtime.now (key_of (R.linked runtime.now).keys class) ≡ true) }
{
    runtime.know();
    som_values::class_of(runtime, objects, reference)
}
