//! The bases of classes in a row: where the variables of each begin, class after class.

ghost use Rattle.som_class_layout_laws.specs.Places.{less};
ghost use Rattle.som_meta.specs.Numbering.{AreNumbered, key_at};
ghost use Rattle.som_class_variables.specs.Placed.{base_of, bases_from};
ghost use Rattle.som_class_variables.specs.Variables.{cell_count, own_variables};
ghost use Rattle.std.specs.Prelude.{◌≡◌, ◌+◌, ◌<◌, ◌++◌, ℕ, IfOk, IfSome, OnOk, Some, flat_map, length, map, slice_get};

use crate::own::own_count;
use crate::start::cell_for;
use som_class_table::Classes;
use som_model::{List, NoMemory};
use som_tables::{ClassNo, DToken, Token};
use std::alloc::Global;

/// The base of a class with so many variables among its own objects, which is the first place, in a row of this shift; none where it has no
/// variables.
pub(crate) fn own_base(alloc: Global, count: u16, shift: u32) -> Result<List<u32>, NoMemory>
    ensures long { IfOk result (λ bases. length bases ≡ cell_count count) }
    ensures each { IfOk result (λ bases. (i : ℕ) → i < cell_count count → slice_get bases i ≡ Some (less shift i)) }
{
    let mut bases = List::new(alloc);
    if count > 0 {
        bases.push(cell_for(0, shift))?;
    }
    Ok(bases)
}

/// The place after so many more, if it has room in four bytes.
fn place_after(place: u32, count: u16) -> Option<u32>
    ensures { IfSome result (λ next. next ≡ place + count) }
{
    place.checked_add(u32::from(count))
}

/// Adds the base of a class with so many variables, if it has any, in a row of this shift.
fn note_base(
    bases: &mut List<(DToken, u32)>,
    class: ClassNo,
    place: u32,
    shift: u32,
    count: u16,
) -> Result<(), NoMemory>
    ensures { OnOk result (bases.new ≡ bases.old ++ base_of class (less shift place) count) }
{
    if count > 0 {
        bases.push((Token::new(class, 0), cell_for(place, shift)))?;
    }
    Ok(())
}

/// The bases of these classes in a row of this shift, the variables of each of which stand after those of the classes before it, from a place on, and
/// the place after all of them. More places than four bytes number count as want of memory.
pub(crate) fn bases_above(
    alloc: Global,
    classes: &Classes,
    place: u32,
    shift: u32,
    all: &[ClassNo],
) -> Result<(List<(DToken, u32)>, u32), NoMemory>
    requires { AreNumbered classes.now all.now }
    ensures bases { IfOk result (λ r. r.0 ≡ bases_from (λ n. length (own_variables classes.now.classes (key_at classes.now n))) shift place all.now) }
    ensures end { IfOk result (λ r. r.1 ≡ place + length (flat_map (own_variables classes.now.classes) (map (key_at classes.now) all.now))) }
{
    let mut bases = List::new(alloc);
    let mut place = place;
    for class in all {
        let count = own_count(classes, *class);
        let next = match place_after(place, count) {
            Some(next) => next,
            None => return Err(NoMemory),
        };
        note_base(&mut bases, *class, place, shift, count)?;
        place = next;
    }
    Ok((bases, place))
}
