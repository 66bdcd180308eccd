//! The search for a method by its name in a linked kernel.

ghost use Rattle.som_class_loaded.specs.Added.{IsMeant, count_to};
ghost use Rattle.som_class_kernel.specs.Linked.{IsMadeIn};
ghost use Rattle.som_meta.specs.Numbering.{key_at};
ghost use Rattle.som_model.specs.Classes.{ancestors};
ghost use Rattle.som_model.specs.Owner.{introduces};
ghost use Rattle.std.specs.Prelude.{◌≡◌, ◌+◌};

use crate::linked::Linked;
use som_model::Text;
use som_tables::{ClassNo, MToken, Steps};
use std::sync::ledger::Ledger;

impl Linked {
    /// The token of the method that a name means in a class that is made: that of the first of the class and its ancestors which introduces the name, and
    /// none exactly where none of them does. Each class that is asked is a step.
    pub fn find<L: Ledger>(
        &self,
        class: ClassNo,
        name: &Text,
        steps: &mut Steps<L>,
    ) -> Option<MToken>
        requires { IsMadeIn self.now class }
        ensures meant { IsMeant self.now.classes class name.now result }
        ensures cost { steps.new ≡ steps.old + count_to (introduces self.now.classes.classes name.now) (ancestors self.now.classes.classes (key_at self.now.classes class)) }
    {
        let _classes = self.classes();
        self.parts.names.find(class, name, steps)
    }
}
