//! The types of the variables of a class's objects, by their places, as those of each ancestor's own.

ghost use Rattle.som_class_variables.specs.Variables.{IsCounted, variables_over};
ghost use Rattle.std.specs.Prelude.{◌≡◌, IfOk, length};

use crate::own::types_of_all;
use som_class_table::Classes;
use som_model::{List, NoMemory, ValueType};
use som_tables::ClassNo;
use std::alloc::Global;
use std::marker::Model;

/// The types of the variables of a class's objects, by their places. They are those that its ancestors have, and nothing is copied.
#[derive(Drop)]
pub struct ObjectVariables<'a> {
    classes: &'a Classes,
    above: &'a [ClassNo],
    count: u32,
}

impl<'a> Model for ObjectVariables<'a> {
    ghost use Rattle.som_class_variables.specs.Variables.{IsCounted, variables_over};
    ghost use Rattle.som_model.specs.contracts.key.ValueType as kind;
    ghost use Rattle.som_model.specs.declared.key.ValueType.{ValueType as Kind};
    ghost use Rattle.std.specs.Coded.{codes};
    ghost use Rattle.std.specs.Prelude.{List as Seq};

    ghost Value = { Seq Kind };

    ghost coded = { Prim.hlevel (codes, kind.the_row.coded) };

    ghost view = { λ v. variables_over v.classes.now v.above.now };

    ghost invariant = { λ v. IsCounted v.classes.now v.above.now v.count };
}

impl<'a> ObjectVariables<'a> {
    /// The types of these classes' own variables, of which there are so many.
    pub(crate) fn new(classes: &'a Classes, above: &'a [ClassNo], count: u32) -> ObjectVariables<'a>
        requires { IsCounted classes.now above.now count }
        ensures { result ≡ variables_over classes.now above.now }
    {
        ObjectVariables {
            classes,
            above,
            count,
        }
    }

    /// How many variables an object has.
    pub fn count(&self) -> u32
        ensures { result ≡ length self.now }
    {
        self.count
    }

    /// A list of the types.
    pub fn list(&self, alloc: Global) -> Result<List<ValueType>, NoMemory>
        ensures { IfOk result (λ types. types ≡ self.now) }
    {
        types_of_all(alloc, self.classes, self.above)
    }
}
