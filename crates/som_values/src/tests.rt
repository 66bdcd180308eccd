//! Tests of values against classes and types: conditions, casts, `isa`, and arguments.

ghost use Rattle.som_model.specs.declared.key.ValueType.TheVariants as types;
ghost use Rattle.som_semantics.specs.Expressions.{is_true as is_true_in};
ghost use Rattle.som_semantics.specs.State.{Heap};
ghost use Rattle.som_semantics.specs.Values.{all_fit as all_fit_in, cast as cast_in, fits as fits_in, isa as isa_in};
ghost use Rattle.som_values.specs.Answers.{passed, truth_tried};
ghost use Rattle.som_values.specs.Shown.{IsSeen, Showing, all_shown, shown, showing};
ghost use Rattle.som_values.specs.Stored.{Holds, IsClassed, IsKept};
ghost use Rattle.std.specs.List.{All};
ghost use Rattle.std.specs.Prelude.{◌≡◌, ℕ, List};

use crate::{Classes, class_of, referred};
use som_model::{ClassKey, Fault, ValueType};
use som_objects::{Cell, ObjectStore};

/// Whether a value is TRUE.
pub fn is_true(cell: &Cell) -> bool
    ensures { (s : Showing) → result ≡ is_true_in (shown s cell.now) }
{
    match cell {
        Cell::Boolean(truth) => *truth,
        Cell::Long(_)
        | Cell::Str(_)
        | Cell::EmptyStr
        | Cell::Nil
        | Cell::Object(_)
        | Cell::Class(_)
        | Cell::Manager => false,
    }
}

/// `as C`: nil passes; else the object has to be live and of class C or one that descends from it.
pub fn cast<C: Classes>(
    classes: &C,
    objects: &ObjectStore,
    class: &ClassKey,
    cell: &Cell,
) -> Result<(), Fault>
    requires kept { IsKept objects.now cell.now }
    requires classed { IsClassed (C.keys classes.now) (C.made classes.now) objects.now cell.now }
    ensures { (serials : List ℕ) (h : Heap) → Holds (showing (C.keys classes.now) serials) objects.now h → IsSeen (showing (C.keys classes.now) serials) cell.now
        → passed (shown (showing (C.keys classes.now) serials) cell.now) result ≡ cast_in (C.world classes.now) class.now h (shown (showing (C.keys classes.now) serials) cell.now) }
{
    let Some(found) = referred(cell) else {
        return Ok(());
    };
    let of = class_of(classes, objects, found)?;
    if classes.descends(of, class) {
        Ok(())
    } else {
        Err(Fault::Cast)
    }
}

/// `isa(e, C)`: FALSE for nil; else the object has to be live.
pub fn isa<C: Classes>(
    classes: &C,
    objects: &ObjectStore,
    class: &ClassKey,
    cell: &Cell,
) -> Result<bool, Fault>
    requires kept { IsKept objects.now cell.now }
    requires classed { IsClassed (C.keys classes.now) (C.made classes.now) objects.now cell.now }
    ensures { (serials : List ℕ) (h : Heap) → Holds (showing (C.keys classes.now) serials) objects.now h → IsSeen (showing (C.keys classes.now) serials) cell.now
        → truth_tried result ≡ isa_in (C.world classes.now) class.now h (shown (showing (C.keys classes.now) serials) cell.now) }
{
    let Some(found) = referred(cell) else {
        return Ok(false);
    };
    let of = class_of(classes, objects, found)?;
    Ok(classes.descends(of, class))
}

/// Whether a value fits a type. No reference to a freed object fits a class.
pub fn fits<C: Classes>(classes: &C, objects: &ObjectStore, kind: &ValueType, cell: &Cell) -> bool
    requires kept { IsKept objects.now cell.now }
    requires classed { IsClassed (C.keys classes.now) (C.made classes.now) objects.now cell.now }
    ensures { (serials : List ℕ) (h : Heap) → Holds (showing (C.keys classes.now) serials) objects.now h → IsSeen (showing (C.keys classes.now) serials) cell.now
        → result ≡ fits_in (C.world classes.now) h kind.now (shown (showing (C.keys classes.now) serials) cell.now) }
{
    match kind {
        ValueType::Void => false,
        ValueType::Long => matches!(cell, Cell::Long(_)),
        ValueType::Boolean => matches!(cell, Cell::Boolean(_)),
        ValueType::Str => matches!(cell, Cell::Str(_) | Cell::EmptyStr),
        ValueType::Class(class) => fits_class(classes, objects, class, cell),
    }
}

// Whether a value is nil, or refers to an object that isn't freed and whose class descends from this one.
fn fits_class<C: Classes>(classes: &C, objects: &ObjectStore, class: &ClassKey, cell: &Cell) -> bool
    requires kept { IsKept objects.now cell.now }
    requires classed { IsClassed (C.keys classes.now) (C.made classes.now) objects.now cell.now }
    ensures { (serials : List ℕ) (h : Heap) → Holds (showing (C.keys classes.now) serials) objects.now h → IsSeen (showing (C.keys classes.now) serials) cell.now
        → result ≡ fits_in (C.world classes.now) h (types.Class class.now) (shown (showing (C.keys classes.now) serials) cell.now) }
{
    let Some(found) = referred(cell) else {
        return matches!(cell, Cell::Nil);
    };
    match class_of(classes, objects, found) {
        Ok(of) => classes.descends(of, class),
        Err(_) => false,
    }
}

/// Whether values fit types, one by one, and there are as many.
pub fn all_fit<C: Classes>(
    classes: &C,
    objects: &ObjectStore,
    kinds: &[ValueType],
    cells: &[Cell],
) -> bool
    requires kept { All (IsKept objects.now) cells.now }
    requires classed { All (IsClassed (C.keys classes.now) (C.made classes.now) objects.now) cells.now }
    ensures { (serials : List ℕ) (h : Heap) → Holds (showing (C.keys classes.now) serials) objects.now h → All (IsSeen (showing (C.keys classes.now) serials)) cells.now
        → result ≡ all_fit_in (C.world classes.now) h kinds.now (all_shown (showing (C.keys classes.now) serials) cells.now) }
{
    if kinds.len() != cells.len() {
        return false;
    }
    for (place, kind) in kinds.iter().enumerate() {
        if !fits(classes, objects, kind, &cells[place]) {
            return false;
        }
    }
    true
}
