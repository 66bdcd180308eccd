//! The closure of a run's classes under metaclasses, each with the number of its metaclass.

ghost use Rattle.som_class_load_order.specs.Metas.{AreClosed};
ghost use Rattle.som_meta.specs.Numbering.{IsNumbered, key_at};
ghost use Rattle.som_model.specs.Kernel.{kernel};
ghost use Rattle.som_model.specs.Lists.{Mem};
ghost use Rattle.som_model.specs.Loads.{Loads};
ghost use Rattle.som_model.specs.Made.{IsMade};
ghost use Rattle.som_model.specs.Metaclass.{meta};
ghost use Rattle.som_model.specs.declared.key.ClassKey.{ClassKey};
ghost use Rattle.som_class_ids.specs.Classes.{classes_of};
ghost use Rattle.std.specs.Prelude.{◌≡◌, ◌↔◌, ◌++◌, IfOk};

use crate::pass::number_metaclasses;
use som_class_ids::Keyed;
use som_class_table::Classes;
use som_model::{Block, List, NoMemory};
use som_tables::ClassNo;
use std::alloc::Global;
use std::marker::Model;

/// The classes of a run, and the metaclass of each. Contracts see the declared classes, and the key that each number stands for; with these the metaclasses
/// are told by the definition.
pub struct Closure {
    classes: Classes,
    metas: List<ClassNo>,
}

impl Drop for Closure {
    fn drop(self) {
        let Closure { classes, metas } = self;
        drop(classes);
        drop(metas);
    }
}

impl Model for Closure {
    ghost use Rattle.som_class_load_order.specs.Metas.{AreMetas};
    ghost use Rattle.som_meta.specs.Numbering.{Numbering};
    ghost use Rattle.som_model.specs.contracts.key.ClassKey as key;
    ghost use Rattle.som_model.specs.contracts.syntax.Block as block;
    ghost use Rattle.std.specs.Coded.{codes};

    ghost Value = { Numbering };

    ghost coded = { Prim.hlevel (codes, key.the_row.coded, block.the_row.coded) };

    ghost view = { λ c. c.classes };

    ghost invariant = { λ c. AreMetas c.classes c.metas };
}

impl Closure {
    /// Numbers the classes that are made for a run of main: the kernel's, these, those of the proxies that a block names, and then what their metaclasses are
    /// derived from. The time grows with the number of classes and, for each, with the square of its parents.
    pub fn new(alloc: Global, classes: List<Keyed>, main: &Block) -> Result<Closure, NoMemory>
        requires { Loads (classes_of classes) main.now }
        ensures classes { IfOk result (λ k. k.classes ≡ kernel ++ classes_of classes) }
        ensures made { IfOk result (λ k. (key : ClassKey) → Mem key k.keys ↔ IsMade k.classes main.now key) }
    {
        let mut classes = Classes::new(alloc, classes, main)?;
        let metas = number_metaclasses(alloc, &mut classes)?;
        Ok(Closure { classes, metas })
    }

    /// The classes by their numbers, with each of which there are its parents and its metaclass.
    pub fn classes(&self) -> &Classes
        ensures value { result.now ≡ self.now }
        ensures closed { AreClosed self.now }
    {
        &self.classes
    }

    /// The metaclass of a class.
    pub fn metaclass(&self, class: ClassNo) -> ClassNo
        requires { IsNumbered self.now class }
        ensures numbered { IsNumbered self.now result }
        ensures key { key_at self.now result ≡ meta self.now.classes (key_at self.now class) }
    {
        self.metas.as_slice()[class.number() as usize]
    }
}
