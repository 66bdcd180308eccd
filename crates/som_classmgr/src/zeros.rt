//! The cells of new objects, each variable at its zero value.

ghost use Rattle.som_class_variables.specs.Variables.{object_variables, own_variables, variables_over};
ghost use Rattle.som_meta.specs.Numbering.{AreNumbered, IsNumbered, key_at};
ghost use Rattle.som_model.specs.declared.key.ValueType.{ValueType};
ghost use Rattle.som_values.specs.Zeros.{AreZeros};
ghost use Rattle.std.specs.Prelude.{◌++◌, IfOk, List as Seq, OnOk};

use som_class_table::Classes;
use som_meta::Ancestry;
use som_model::{List, NoMemory};
use som_objects::Cell;
use som_tables::ClassNo;
use som_values::add_zeros;
use std::alloc::Global;

/// Adds the zero values of a class's own variables.
fn add_own(classes: &Classes, class: ClassNo, cells: &mut List<Cell>) -> Result<(), NoMemory>
    requires { IsNumbered classes.now class }
    ensures { (types : Seq ValueType) → AreZeros types cells.old → OnOk result (AreZeros (types ++ own_variables classes.now.classes (key_at classes.now class)) cells.new) }
{
    let _count = classes.count();
    if class.number() < classes.declared_count() {
        let variables = classes.declared(class).decl.variables.as_slice();
        add_zeros(variables, cells)
    } else {
        Ok(())
    }
}

/// The zero values of the own variables of these classes, each class's after those before it, in a list that begins with
/// room for so many.
fn zeros_over(
    alloc: Global,
    classes: &Classes,
    all: &[ClassNo],
    room: u32,
) -> Result<List<Cell>, NoMemory>
    requires { AreNumbered classes.now all.now }
    ensures { IfOk result (AreZeros (variables_over classes.now all.now)) }
{
    let mut cells = List::with_room(alloc, room as usize)?;
    for class in all {
        add_own(classes, *class, &mut cells)?;
    }
    Ok(cells)
}

/// The cells of the variables of a new object of a class, in a list that begins with room for so many. Its ancestors are
/// gone over once.
pub(crate) fn zeros_of(
    alloc: Global,
    classes: &Classes,
    class: ClassNo,
    room: u32,
) -> Result<List<Cell>, NoMemory>
    requires { IsNumbered classes.now class }
    ensures { IfOk result (AreZeros (object_variables classes.now.classes (key_at classes.now class))) }
{
    zeros_over(alloc, classes, classes.ancestors(class).as_slice(), room)
}
