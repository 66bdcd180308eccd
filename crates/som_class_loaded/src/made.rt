//! The parts of made classes: rows, names and hooks; and how classes are made in order.

ghost use Rattle.som_class_table.specs.Loaded.{AreLoaded};
ghost use Rattle.som_class_loaded.specs.Made.{AreMarked, AreParts, CanBeMade, HaveMadeBelow, KeepsMade};
ghost use Rattle.som_class_loaded.specs.Making.{parts_of};
ghost use Rattle.som_class_table.specs.Making.{IsMarked};
ghost use Rattle.som_meta.specs.Numbering.{IsNumbered, key_at};
ghost use Rattle.som_model.specs.Classes.{parents_of};
ghost use Rattle.som_model.specs.Lists.{Mem};
ghost use Rattle.std.specs.Prelude.{◌≡◌, ◌∷◌, ◌<◌, [], ℕ, IfOk, OnErr, OnOk, false, length, replicate, slice_set, take, true};

use crate::names::add_names;
use crate::rows::{fill_methods, fill_variables};
use som_class_bodies::Bodies;
use som_class_table::Classes;
use som_class_variables::Places;
use som_hooks::hooks_of;
use som_model::{List, NoMemory};
use som_names::NameIndex;
use som_tables::ClassNo;
use std::alloc::Global;

/// What there is of the classes that are made: rows, names and hooks. A class counts as made once all of them stand.
pub struct MadeClasses {
    pub bodies: Bodies,
    pub places: Places,
    pub names: NameIndex,
    pub made: Vec<bool>,
    pub hooks: Vec<List<ClassNo>>,
}

impl Drop for MadeClasses {
    fn drop(self) {
        let MadeClasses {
            bodies,
            places,
            names,
            made,
            hooks,
        } = self;
        drop(bodies);
        drop(places);
        drop(names);
        drop(made);
        drop(hooks);
    }
}

/// So many marks, none of them set.
fn no_marks(alloc: Global, count: u32) -> Result<Vec<bool>, NoMemory>
    ensures { IfOk result (λ marks. marks.items ≡ replicate count false) }
{
    let mut marks = Vec::new(alloc);
    for _number in 0..count {
        marks.push(false)?;
    }
    Ok(marks)
}

/// So many lists with nothing in them.
fn no_hooks(alloc: Global, count: u32) -> Result<Vec<List<ClassNo>>, NoMemory>
    ensures { IfOk result (λ hooks. length hooks.items ≡ count) }
{
    let mut hooks = Vec::new(alloc);
    for _number in 0..count {
        hooks.push(List::new(alloc))?;
    }
    Ok(hooks)
}

/// Puts the hooks of a class there, and marks it as made.
fn put(made: &mut Vec<bool>, all: &mut Vec<List<ClassNo>>, place: usize, hooks: List<ClassNo>)
    requires marks { place < length made.old.items }
    requires long { place < length all.old.items }
    ensures made { made.new.items ≡ slice_set made.old.items place true }
    ensures hooks { all.new.items ≡ slice_set all.old.items place hooks }
{
    made[place] = true;
    all[place] = hooks;
}

/// The classes can be loaded, and the parents of this one have lower numbers.
fn know_class(classes: &Classes, class: ClassNo)
    requires { IsNumbered classes.now class }
    ensures loaded { AreLoaded classes.now }
    ensures lower { (p : ℕ) → IsNumbered classes.now p → Mem (key_at classes.now p) (parents_of classes.now.classes (key_at classes.now class)) → p < class }
{
    let _count = classes.count();
    let _parents = classes.parents(class);
}

impl MadeClasses {
    /// There is nothing of any class yet.
    pub fn new(alloc: Global, classes: &Classes) -> Result<MadeClasses, NoMemory>
        ensures parts { IfOk result (λ made. AreParts classes.now (parts_of made)) }
        ensures none { IfOk result (λ made. (n : ℕ) → IsMarked (parts_of made).made n → ⊥) }
    {
        let count = classes.count();
        let made = no_marks(alloc, count)?;
        let hooks = no_hooks(alloc, count)?;
        let bodies = Bodies::new(alloc, classes)?;
        let places = Places::new(alloc, classes)?;
        Ok(MadeClasses {
            bodies,
            places,
            names: NameIndex::new(alloc),
            made,
            hooks,
        })
    }

    /// Makes a class whose parents are made. What stood already after an earlier want of memory is not done again.
    fn make(&mut self, alloc: Global, classes: &Classes, class: ClassNo) -> Result<(), NoMemory>
        requires parts { AreParts classes.now (parts_of self.old) }
        requires class { IsNumbered classes.now class }
        requires new { IsMarked (parts_of self.old).made class → ⊥ }
        requires parents { HaveMadeBelow classes.now (parts_of self.old).made class }
        ensures parts { AreParts classes.now (parts_of self.new) }
        ensures keeps { KeepsMade (parts_of self.old) (parts_of self.new) }
        ensures made { OnOk result (AreMarked (parts_of self.old).made (parts_of self.new).made (class ∷ [])) }
        ensures err { OnErr result ((parts_of self.new).made ≡ (parts_of self.old).made) }
    {
        know_class(classes, class);
        fill_methods(alloc, classes, &mut self.bodies, class)?;
        fill_variables(alloc, classes, &mut self.places, class)?;
        let hooks = hooks_of(alloc, classes, class)?;
        add_names(alloc, classes, &mut self.names, class)?;
        put(
            &mut self.made,
            &mut self.hooks,
            class.number() as usize,
            hooks,
        );
        Ok(())
    }

    /// Makes these classes, in this order. Where memory runs out the first of them are made.
    pub fn make_all(
        &mut self,
        alloc: Global,
        classes: &Classes,
        order: &[ClassNo],
    ) -> Result<(), NoMemory>
        requires parts { AreParts classes.now (parts_of self.old) }
        requires order { CanBeMade classes.now (parts_of self.old).made order.now }
        ensures parts { AreParts classes.now (parts_of self.new) }
        ensures keeps { KeepsMade (parts_of self.old) (parts_of self.new) }
        ensures made { OnOk result (AreMarked (parts_of self.old).made (parts_of self.new).made order.now) }
        ensures first { (i : ℕ) × AreMarked (parts_of self.old).made (parts_of self.new).made (take i order.now) }
    {
        for class in order {
            self.make(alloc, classes, *class)?;
        }
        Ok(())
    }
}
