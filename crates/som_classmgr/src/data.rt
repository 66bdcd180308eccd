//! Variables as a linked kernel answers them: tokens, places and types.

ghost use Rattle.som_class_kernel.specs.Linked.{IsMadeIn};
ghost use Rattle.som_meta.specs.Numbering.{IsNumbered, key_at};
ghost use Rattle.som_model.specs.Ancestors.{Descends};
ghost use Rattle.som_model.specs.Classes.{hierarchy};
ghost use Rattle.som_class_variables.specs.Variables.{IsVariable, object_variables, own_variables, place_in};
ghost use Rattle.std.specs.Prelude.{◌≡◌, ◌<◌, ℕ, length, slice_get};

use crate::asked::own_count;
use crate::kernel::Kernel;
use som_class_kernel::Linked;
use som_class_variables::ObjectVariables;
use som_tables::{ClassNo, DToken};

impl Kernel<Linked> {
    /// How many variables of its own a class has, made or not.
    pub fn variable_count(&self, class: ClassNo) -> usize
        requires { IsNumbered self.now.classes class }
        ensures { result ≡ length (own_variables self.now.classes.classes (key_at self.now.classes class)) }
    {
        own_count(self.classes(), class)
    }

    /// The token of a variable of a class's own, which need not be made.
    pub fn data_token(&self, class: ClassNo, variable: u8) -> DToken
        requires class { IsNumbered self.now.classes class }
        requires variable { variable < length (own_variables self.now.classes.classes (key_at self.now.classes class)) }
        ensures token { result ≡ (class, variable) }
        ensures variable { IsVariable self.now.classes result }
    {
        self.stage.data_token(class, variable)
    }

    /// The place of a variable in the objects of a class that is made. Two variables have two places.
    pub fn data_place(&self, class: ClassNo, variable: DToken) -> u32
        requires made { IsMadeIn self.now class }
        requires variable { IsVariable self.now.classes variable }
        requires below { Descends (hierarchy self.now.classes.classes) (key_at self.now.classes class) (key_at self.now.classes variable.0) }
        ensures place { result ≡ place_in self.now.classes.classes (key_at self.now.classes class) (key_at self.now.classes variable.0) variable.1 }
        ensures kind { slice_get (object_variables self.now.classes.classes (key_at self.now.classes class)) result ≡ slice_get (own_variables self.now.classes.classes (key_at self.now.classes variable.0)) variable.1 }
        ensures within { result < length (object_variables self.now.classes.classes (key_at self.now.classes class)) }
        ensures apart { (other : ℕ × ℕ) → IsVariable self.now.classes other → Descends (hierarchy self.now.classes.classes) (key_at self.now.classes class) (key_at self.now.classes other.0) →
            place_in self.now.classes.classes (key_at self.now.classes class) (key_at self.now.classes other.0) other.1 ≡ result → other ≡ variable }
    {
        self.stage.data_place(class, variable)
    }

    /// The types of the variables of the objects of a class that is made, by their places.
    pub fn variables(&self, class: ClassNo) -> ObjectVariables<'_>
        requires { IsMadeIn self.now class }
        ensures { result ≡ object_variables self.now.classes.classes (key_at self.now.classes class) }
    {
        self.stage.variables(class)
    }
}
