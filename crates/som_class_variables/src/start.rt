//! Where the row of a class goes on after what the row of its first parent serves, and how its cells tell places.

ghost use Rattle.som_class_layout_laws.specs.Places.{less};
ghost use Rattle.som_class_variables.specs.Placed.{GoesOn};
ghost use Rattle.som_meta.specs.Numbering.{IsNumbered};
ghost use Rattle.std.specs.Prelude.{◌≡◌, ◌+◌, ◌^◌, ◌<◌, ℕ, IfOk, length};

use som_class_table::Classes;
use som_meta::Ancestry;
use som_model::NoMemory;
use som_tables::ClassNo;

/// Where the row of a class goes on: after so many proper ancestors, which its first parent's row serves, the variables of the next one
/// have this place; and the cells of the row are places less this shift.
#[derive(Clone, Copy)]
pub(crate) struct RowStart {
    pub(crate) served: usize,
    pub(crate) place: u32,
    pub(crate) shift: u32,
}

/// The cell for a place in a row of this shift. It goes round in 32 bits.
pub(crate) fn cell_for(place: u32, shift: u32) -> u32
    ensures { result ≡ less shift place }
{
    if place < shift {
        u32::MAX - (shift - place) + 1
    } else {
        place - shift
    }
}

/// The place that a cell tells in a row of this shift.
pub(crate) fn place_for(cell: u32, shift: u32) -> u32
    ensures { (place : ℕ) → place < 2 ^ 32 → cell ≡ less shift place → result ≡ place }
{
    let room = u32::MAX - cell;
    if shift <= room {
        cell + shift
    } else {
        shift - room - 1
    }
}

/// The sum, or want of memory where four bytes don't hold it.
fn sum(a: u32, b: u32) -> Result<u32, NoMemory>
    ensures { IfOk result (λ sum. sum ≡ a + b) }
{
    match a.checked_add(b) {
        Some(sum) => Ok(sum),
        None => Err(NoMemory),
    }
}

/// Where the row of a class with so many variables of its own goes on.
pub(crate) fn row_start(
    classes: &Classes,
    counts: &[u32],
    shifts: &[u32],
    class: ClassNo,
    own: u16,
) -> Result<RowStart, NoMemory>
    requires class { IsNumbered classes.now class }
    requires counts { length counts.now ≡ length classes.now.keys }
    requires shifts { length shifts.now ≡ length classes.now.keys }
    ensures { IfOk result (GoesOn classes.now counts.now shifts.now class own) }
{
    let own = u32::from(own);
    let [first, ..] = classes.parents(class).as_slice() else {
        return Ok(RowStart {
            served: 0,
            place: own,
            shift: own,
        });
    };
    let number = first.number() as usize;
    let place = sum(own, counts[number])?;
    let shift = sum(own, shifts[number])?;
    Ok(RowStart {
        served: classes.ancestors(*first).len(),
        place,
        shift,
    })
}
