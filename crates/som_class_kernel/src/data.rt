//! Variables of a linked kernel: tokens, places and types.

ghost use Rattle.som_class_kernel.specs.Linked.{IsMadeIn};
ghost use Rattle.som_meta.specs.Numbering.{IsNumbered, key_at};
ghost use Rattle.som_model.specs.Ancestors.{Descends};
ghost use Rattle.som_model.specs.Classes.{hierarchy};
ghost use Rattle.som_class_variables.specs.Variables.{IsVariable, object_variables, own_variables, place_in};
ghost use Rattle.std.specs.Prelude.{◌≡◌, ◌<◌, ℕ, length, slice_get};

use crate::linked::Linked;
use som_class_variables::ObjectVariables;
use som_tables::{ClassNo, DToken};

impl Linked {
    /// The token of a variable of a class's own, which need not be made.
    pub fn data_token(&self, class: ClassNo, variable: u8) -> DToken
        requires class { IsNumbered self.now.classes class }
        requires variable { variable < length (own_variables self.now.classes.classes (key_at self.now.classes class)) }
        ensures token { result ≡ (class, variable) }
        ensures variable { IsVariable self.now.classes result }
    {
        let classes = self.classes();
        self.parts
            .places
            .data_token(classes, class, u16::from(variable))
    }

    /// The place of a variable in the objects of a class that is made. Two variables have two places.
    pub fn data_place(&self, class: ClassNo, variable: DToken) -> u32
        requires made { IsMadeIn self.now class }
        requires variable { IsVariable self.now.classes variable }
        requires below { Descends (hierarchy self.now.classes.classes) (key_at self.now.classes class) (key_at self.now.classes variable.0) }
        ensures place { result ≡ place_in self.now.classes.classes (key_at self.now.classes class) (key_at self.now.classes variable.0) variable.1 }
        ensures kind { slice_get (object_variables self.now.classes.classes (key_at self.now.classes class)) result ≡ slice_get (own_variables self.now.classes.classes (key_at self.now.classes variable.0)) variable.1 }
        ensures within { result < length (object_variables self.now.classes.classes (key_at self.now.classes class)) }
        ensures apart { (other : ℕ × ℕ) → IsVariable self.now.classes other → Descends (hierarchy self.now.classes.classes) (key_at self.now.classes class) (key_at self.now.classes other.0) →
            place_in self.now.classes.classes (key_at self.now.classes class) (key_at self.now.classes other.0) other.1 ≡ result → other ≡ variable }
    {
        let classes = self.classes();
        self.parts.places.data_place(classes, class, variable)
    }

    /// The types of the variables of the objects of a class that is made, by their places.
    pub fn variables(&self, class: ClassNo) -> ObjectVariables<'_>
        requires { IsMadeIn self.now class }
        ensures { result ≡ object_variables self.now.classes.classes (key_at self.now.classes class) }
    {
        let classes = self.classes();
        self.parts.places.variables(classes, class)
    }
}
