//! The rows of methods and of variables of a class that is made.

ghost use Rattle.som_class_bodies.specs.Bodies.{AreBodies, HaveParentRows};
ghost use Rattle.som_class_loaded.specs.Made.{KeepsFilled};
ghost use Rattle.som_meta.specs.Numbering.{IsNumbered};
ghost use Rattle.som_class_variables.specs.Placed.{ArePlaces, HaveParentRows as HaveParentPlaces};
ghost use Rattle.som_tables.specs.Layout.{Extends};
ghost use Rattle.som_tables.specs.Rows.{HasRow};
ghost use Rattle.std.specs.Prelude.{◌≡◌, OnOk};

use som_class_bodies::Bodies;
use som_class_table::Classes;
use som_class_variables::Places;
use som_model::NoMemory;
use som_tables::ClassNo;
use std::alloc::Global;

/// Gives a class its row of methods, unless it has one.
pub(crate) fn fill_methods(
    alloc: Global,
    classes: &Classes,
    bodies: &mut Bodies,
    class: ClassNo,
) -> Result<(), NoMemory>
    requires bodies { AreBodies classes.now bodies.old }
    requires class { IsNumbered classes.now class }
    requires parents { HaveParentRows classes.now bodies.old class }
    ensures bodies { AreBodies classes.now bodies.new }
    ensures earlier { Extends bodies.old.bodies bodies.new.bodies }
    ensures keeps { KeepsFilled bodies.old.rows bodies.new.rows }
    ensures filled { OnOk result (HasRow bodies.new.rows class) }
{
    if bodies.has_row(class) {
        return Ok(());
    }
    bodies.fill(alloc, classes, class)
}

/// Gives a class its row of variables, unless it has one.
pub(crate) fn fill_variables(
    alloc: Global,
    classes: &Classes,
    places: &mut Places,
    class: ClassNo,
) -> Result<(), NoMemory>
    requires places { ArePlaces classes.now places.old }
    requires class { IsNumbered classes.now class }
    requires parents { HaveParentPlaces classes.now places.old.rows class }
    ensures places { ArePlaces classes.now places.new }
    ensures keeps { KeepsFilled places.old.rows places.new.rows }
    ensures filled { OnOk result (HasRow places.new.rows class) }
{
    if places.has_row(class) {
        return Ok(());
    }
    places.fill(alloc, classes, class)
}
