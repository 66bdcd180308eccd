//! Tests of references: whether an object lives, what may receive a call, and the class of an object.

ghost use Rattle.som_semantics.specs.State.{Heap, is_live as is_live_in, live as live_in, receiver as receiver_in};
ghost use Rattle.som_objects.specs.Objects.{Objects};
ghost use Rattle.som_values.specs.Answers.{shown_found};
ghost use Rattle.som_values.specs.Shown.{IsNumbered, IsSeen, IsSeenRef, Showing, cell_of, shown, shown_ref, showing};
ghost use Rattle.som_values.specs.Stored.{Holds, IsClassOf, IsClassedRef, IsKept, IsKeptRef};
ghost use Rattle.std.specs.Prelude.{◌≡◌, ℕ, List, IfOk};

use crate::{Classes, Reference, referred};
use som_model::Fault;
use som_objects::{Cell, ObjectStore};
use som_tables::ClassNo;

/// Whether an object isn't freed. Class objects and the class manager object never are.
pub fn is_live(objects: &ObjectStore, reference: &Reference) -> bool
    requires { IsKeptRef objects.now reference.now }
    ensures { (s : Showing) (h : Heap) → Holds s objects.now h → IsSeenRef s reference.now → result ≡ is_live_in h (shown_ref s reference.now) }
{
    match reference {
        Reference::Object(object) => objects.class(object).is_ok(),
        Reference::Class(_) | Reference::Manager => true,
    }
}

/// A reference whose object isn't freed, or the fault Freed.
pub fn live(objects: &ObjectStore, reference: Reference) -> Result<Reference, Fault>
    requires { IsKeptRef objects.now reference }
    ensures means { (s : Showing) (h : Heap) → Holds s objects.now h → IsSeenRef s reference → shown_found s result ≡ live_in h (shown_ref s reference) }
    ensures same { IfOk result (λ r. r ≡ reference) }
{
    if is_live(objects, &reference) {
        Ok(reference)
    } else {
        Err(Fault::Freed)
    }
}

/// The receiver of a call: a value that isn't nil, and whose object isn't freed.
pub fn receiver(objects: &ObjectStore, cell: &Cell) -> Result<Reference, Fault>
    requires { IsKept objects.now cell.now }
    ensures means { (s : Showing) (h : Heap) → Holds s objects.now h → IsSeen s cell.now → shown_found s result ≡ receiver_in h (shown s cell.now) }
    ensures held { IfOk result (λ r. cell.now ≡ cell_of r) }
{
    match referred(cell) {
        Some(reference) => live(objects, reference),
        None => Err(Fault::Nil),
    }
}

/// The class of an object, or the fault Freed.
pub fn class_of<C: Classes>(
    classes: &C,
    objects: &ObjectStore,
    reference: Reference,
) -> Result<ClassNo, Fault>
    requires kept { IsKeptRef objects.now reference }
    requires classed { IsClassedRef (C.keys classes.now) (C.made classes.now) objects.now reference }
    ensures means { (serials : List ℕ) (h : Heap) → Holds (showing (C.keys classes.now) serials) objects.now h → IsSeenRef (showing (C.keys classes.now) serials) reference
        → IsClassOf (C.keys classes.now) (C.world classes.now) h (shown_ref (showing (C.keys classes.now) serials) reference) result }
    ensures numbered { IfOk result (IsNumbered (C.keys classes.now)) }
{
    match reference {
        Reference::Object(object) => match objects.class(&object) {
            Ok(class) => Ok(class),
            Err(_) => Err(Fault::Freed),
        },
        Reference::Class(class) => Ok(classes.metaclass(class)),
        Reference::Manager => Ok(classes.manager()),
    }
}
