//! Which classes of a linked kernel are made, with their metaclasses and hooks.

ghost use Rattle.som_class_kernel.specs.Linked.{IsMadeIn};
ghost use Rattle.som_meta.specs.Numbering.{AreNumbered, IsNumbered, key_at};
ghost use Rattle.som_model.specs.Lists.{Mem};
ghost use Rattle.som_model.specs.Metaclass.{hooks as hooks_of, meta};
ghost use Rattle.std.specs.List.{count_by};
ghost use Rattle.std.specs.Prelude.{◌≡◌, ◌↔◌, ◌<◌, ℕ, IsTrue, length, map};

use crate::linked::Linked;
use som_model::List;
use som_tables::ClassNo;

/// How many of the marks are set.
fn count_set(marks: &[bool]) -> u32
    requires { length marks.now < 4294967296 }
    ensures { result ≡ count_by (λ m. m) marks.now }
{
    let mut count = 0;
    for mark in marks {
        if *mark {
            count += 1;
        }
    }
    count
}

impl Linked {
    /// Whether a class is made.
    pub fn is_made(&self, class: ClassNo) -> bool
        requires { IsNumbered self.now.classes class }
        ensures { IsTrue result ↔ IsMadeIn self.now class }
    {
        self.parts.made[class.number() as usize]
    }

    /// How many classes are made.
    pub fn made(&self) -> u32
        ensures { result ≡ count_by (λ m. m) self.now.parts.made }
    {
        let _count = self.classes().count();
        count_set(self.parts.made.as_slice())
    }

    /// The metaclass of a class that is made.
    pub fn metaclass(&self, class: ClassNo) -> ClassNo
        requires numbered { IsNumbered self.now.classes class }
        requires made { IsMadeIn self.now class }
        ensures made { IsMadeIn self.now result }
        ensures numbered { IsNumbered self.now.classes result }
        ensures key { key_at self.now.classes result ≡ meta self.now.classes.classes (key_at self.now.classes class) }
    {
        self.closure.metaclass(class)
    }

    /// The hooks of the metaclass of a class that is made, in the order in which their before bodies run. They are made.
    pub fn hooks(&self, class: ClassNo) -> &List<ClassNo>
        requires { IsMadeIn self.now class }
        ensures numbered { AreNumbered self.now.classes result.now }
        ensures keys { map (key_at self.now.classes) result.now ≡ hooks_of self.now.classes.classes (meta self.now.classes.classes (key_at self.now.classes class)) }
        ensures made { (n : ℕ) → Mem n result.now → IsMadeIn self.now n }
    {
        let _classes = self.classes();
        let metaclass = self.metaclass(class);
        &self.parts.hooks[metaclass.number() as usize]
    }
}
