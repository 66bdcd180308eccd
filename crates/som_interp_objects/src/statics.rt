//! Variables of class objects, whose cells are made at the first write.

ghost use Rattle.som_model.specs.Rules.{is_void};
ghost use Rattle.som_objects.specs.declared.cell.Cell.{Cell as Held};
ghost use Rattle.som_values.specs.Shown.{IsNumbered, key_of};
ghost use Rattle.som_interp_objects.specs.Cells.{AreZero};
ghost use Rattle.som_interp_objects.specs.Statics.{AreAlike, AreAlikeElse, IsBegun, IsOfClassObject, IsPut, IsWholeClass, cells_of};
ghost use Rattle.std.specs.Option.{is_some};
ghost use Rattle.std.specs.Prelude.{◌≡◌, ◌<◌, IfOk, List as Seq, OnErr, OnOk, Some, false, length, slice_set, true};

use crate::kernel::{metaclass_of, place_of, sure_place, zero_variable};
use crate::zero_cells;
use som_interp_state::Runtime;
use som_model::{List, NoMemory};
use som_objects::Cell;
use som_tables::ClassNo;
use som_values::copy_cell;
use std::alloc::Global;
use std::mem;

/// A variable of a class object: what its cell holds, or the zero value where the class object wasn't written yet, or
/// has no such variable.
pub(crate) fn read_class_object<R: Runtime>(
    runtime: &R,
    statics: &Vec<Option<List<Cell>>>,
    of: ClassNo,
    class: ClassNo,
    variable: u8,
) -> Result<Cell, NoMemory>
    requires of { IsNumbered (R.linked runtime.now).keys of }
    requires made { R.made runtime.now (key_of (R.linked runtime.now).keys of) ≡ true }
    requires class { IsNumbered (R.linked runtime.now).keys class }
    requires whole { IsWholeClass (R.linked runtime.now) statics.now.items of }
    ensures { IfOk result (IsOfClassObject (R.linked runtime.now) statics.now.items of (key_of (R.linked runtime.now).keys class) variable) }
{
    match statics.get(of.number() as usize) {
        Some(Some(cells)) => match static_place(runtime, of, class, variable) {
            Some(place) => copy_cell(&cells.as_slice()[place as usize]),
            None => Ok(zero_variable(runtime, class, variable)),
        },
        _ => Ok(zero_variable(runtime, class, variable)),
    }
}

// The place of a variable among the cells of a class object.
fn static_place<R: Runtime>(runtime: &R, of: ClassNo, class: ClassNo, variable: u8) -> Option<u32>
    requires of { IsNumbered (R.linked runtime.now).keys of }
    requires made { R.made runtime.now (key_of (R.linked runtime.now).keys of) ≡ true }
    requires class { IsNumbered (R.linked runtime.now).keys class }
    ensures { result ≡ (R.linked runtime.now).statics of (key_of (R.linked runtime.now).keys class) variable }
{
    let meta = metaclass_of(runtime, of);
    place_of(runtime, meta, class, variable)
}

/// A variable of a class object gets a value in its cell. The class object's cells are made where it has none yet.
pub(crate) fn write_class_object<R: Runtime>(
    alloc: Global,
    runtime: &R,
    statics: &mut Vec<Option<List<Cell>>>,
    of: ClassNo,
    class: ClassNo,
    variable: u8,
    cell: Cell,
) -> Result<(), NoMemory>
    requires of { IsNumbered (R.linked runtime.now).keys of }
    requires made { R.made runtime.now (key_of (R.linked runtime.now).keys of) ≡ true }
    requires class { IsNumbered (R.linked runtime.now).keys class }
    requires whole { IsWholeClass (R.linked runtime.now) statics.old.items of }
    requires below { (R.linked runtime.now).world.is_a ((R.linked runtime.now).world.meta (key_of (R.linked runtime.now).keys of)) (key_of (R.linked runtime.now).keys class) ≡ true }
    requires variable { is_void ((R.linked runtime.now).world.variable (key_of (R.linked runtime.now).keys class) variable) ≡ false }
    ensures put { OnOk result (IsPut (R.linked runtime.now) statics.old.items statics.new.items of (key_of (R.linked runtime.now).keys class) variable cell) }
    ensures err { OnErr result (AreAlike statics.old.items statics.new.items) }
{
    let place = sure_static_place(runtime, of, class, variable);
    begin(alloc, runtime, statics, of)?;
    put(statics, of.number() as usize, place as usize, cell);
    Ok(())
}

// The place of a variable that the class object has.
fn sure_static_place<R: Runtime>(runtime: &R, of: ClassNo, class: ClassNo, variable: u8) -> u32
    requires of { IsNumbered (R.linked runtime.now).keys of }
    requires made { R.made runtime.now (key_of (R.linked runtime.now).keys of) ≡ true }
    requires class { IsNumbered (R.linked runtime.now).keys class }
    requires below { (R.linked runtime.now).world.is_a ((R.linked runtime.now).world.meta (key_of (R.linked runtime.now).keys of)) (key_of (R.linked runtime.now).keys class) ≡ true }
    requires variable { is_void ((R.linked runtime.now).world.variable (key_of (R.linked runtime.now).keys class) variable) ≡ false }
    ensures { (R.linked runtime.now).statics of (key_of (R.linked runtime.now).keys class) variable ≡ Some result }
{
    let meta = metaclass_of(runtime, of);
    sure_place(runtime, meta, class, variable)
}

// The class object has cells from now on: those of zero values where it had none.
fn begin<R: Runtime>(
    alloc: Global,
    runtime: &R,
    statics: &mut Vec<Option<List<Cell>>>,
    of: ClassNo,
) -> Result<(), NoMemory>
    requires of { IsNumbered (R.linked runtime.now).keys of }
    requires made { R.made runtime.now (key_of (R.linked runtime.now).keys of) ≡ true }
    ensures begun { OnOk result (IsBegun (R.linked runtime.now) of statics.old.items statics.new.items) }
    ensures err { OnErr result (AreAlike statics.old.items statics.new.items) }
{
    let number = of.number() as usize;
    make_room(statics, number)?;
    if !has_cells(statics, number) {
        let cells = static_zeros(alloc, runtime, of)?;
        drop(mem::replace(&mut statics[number], Some(cells)));
    }
    Ok(())
}

fn has_cells(statics: &Vec<Option<List<Cell>>>, number: usize) -> bool
    ensures { result ≡ is_some (cells_of statics.now.items number) }
{
    match statics.get(number) {
        Some(Some(_)) => true,
        _ => false,
    }
}

// The cells of a class object's variables, at their zero values.
fn static_zeros<R: Runtime>(alloc: Global, runtime: &R, of: ClassNo) -> Result<List<Cell>, NoMemory>
    requires of { IsNumbered (R.linked runtime.now).keys of }
    requires made { R.made runtime.now (key_of (R.linked runtime.now).keys of) ≡ true }
    ensures { IfOk result (AreZero (R.linked runtime.now) ((R.linked runtime.now).statics of)) }
{
    let meta = metaclass_of(runtime, of);
    zero_cells(alloc, runtime, meta)
}

// There is a place for the class of a number.
fn make_room(statics: &mut Vec<Option<List<Cell>>>, number: usize) -> Result<(), NoMemory>
    ensures room { OnOk result (number < length statics.new.items) }
    ensures alike { AreAlike statics.old.items statics.new.items }
{
    while statics.len() <= number {
        statics.push(None)?;
    }
    Ok(())
}

// One cell of a class object changes.
fn put(statics: &mut Vec<Option<List<Cell>>>, number: usize, place: usize, cell: Cell)
    requires { (cs : Seq Held) × (cells_of statics.old.items number ≡ Some cs) × place < length cs }
    ensures put { (cs : Seq Held) → cells_of statics.old.items number ≡ Some cs → cells_of statics.new.items number ≡ Some (slice_set cs place cell) }
    ensures others { AreAlikeElse number statics.old.items statics.new.items }
{
    match mem::replace(&mut statics[number], None) {
        Some(cells) => {
            statics[number] = Some(with_cell(cells, place, cell));
        },
        None => unreachable!(),
    }
}

fn with_cell(cells: List<Cell>, place: usize, cell: Cell) -> List<Cell>
    requires { place < length cells }
    ensures { result ≡ slice_set cells place cell }
{
    let mut items = cells.into_vec();
    items[place] = cell;
    List::from_vec(items)
}
