//! The arguments of the kernel's methods: a number, a text or a class object.

ghost use Rattle.som_interp_builtins.specs.Arguments.{class_argued, class_tried, first_cell, further_cells};
ghost use Rattle.som_semantics.specs.Invoked.{first_argument, stands_for};
ghost use Rattle.som_semantics.specs.State.{Heap};
ghost use Rattle.som_semantics.specs.Values.{number_of, text_of as text_in};
ghost use Rattle.som_objects.specs.declared.cell.Cell.TheVariants as cells;
ghost use Rattle.som_values.specs.Shown.{IsSeen, Showing, all_shown, shown_ref};
ghost use Rattle.som_values.specs.declared.reference.Reference.TheVariants as references;
ghost use Rattle.som_values.specs.Stored.{Holds, IsKept};
ghost use Rattle.std.specs.List.{All};
ghost use Rattle.std.specs.Prelude.{◌≡◌, IfOk};

use som_model::{Fault, NoMemory, Text};
use som_objects::{Cell, ObjectStore};
use som_tables::ClassNo;
use som_values::{Reference, receiver, text_of};
use std::alloc::Global;

/// The arguments after the first.
pub(crate) fn further(args: &[Cell]) -> &[Cell]
    ensures { result.now ≡ further_cells args.now }
{
    if args.is_empty() { args } else { &args[1..] }
}

/// The number of the first argument; 0 where it is none.
pub(crate) fn first_number(args: &[Cell]) -> i32
    ensures { (s : Showing) → result ≡ number_of (first_argument (all_shown s args.now)) }
{
    match args.first() {
        Some(Cell::Long(number)) => *number,
        _ => 0,
    }
}

/// The text of the first argument; none where it isn't there.
pub(crate) fn first_text(alloc: Global, args: &[Cell]) -> Result<Text, NoMemory>
    ensures { IfOk result (λ text. (s : Showing) → text ≡ text_in (first_argument (all_shown s args.now))) }
{
    match args.first() {
        Some(cell) => text_of(alloc, cell),
        None => Ok(Text::from_vec(Vec::new(alloc))),
    }
}

/// The class whose class object the first argument is.
pub(crate) fn class_argument(objects: &ObjectStore, args: &[Cell]) -> Result<ClassNo, Fault>
    requires { All (IsKept objects.now) args.now }
    ensures means { (s : Showing) (h : Heap) → Holds s objects.now h → All (IsSeen s) args.now → class_tried s.keys result ≡ class_argued h (all_shown s args.now) }
    ensures held { IfOk result (λ class. first_cell args.now ≡ cells.Class class) }
{
    let Some(cell) = args.first() else {
        return Err(Fault::Nil);
    };
    class_in(receiver(objects, cell)?)
}

/// The class whose class object a reference is to.
pub(crate) fn class_in(reference: Reference) -> Result<ClassNo, Fault>
    ensures means { (s : Showing) → class_tried s.keys result ≡ stands_for (shown_ref s reference) }
    ensures held { IfOk result (λ class. reference ≡ references.Class class) }
{
    match reference {
        Reference::Class(class) => Ok(class),
        Reference::Object(_) | Reference::Manager => Err(Fault::NotClass),
    }
}
