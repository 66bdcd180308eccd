//! The kernel and its stages, unlinked and linked; a linked one makes classes as they are reached.

ghost use Rattle.som_class_table.specs.Loaded.{AreLoaded};
ghost use Rattle.som_class_kernel.specs.Linked.{IsLinked, IsMadeIn};
ghost use Rattle.som_class_loaded.specs.Made.{IsReached, KeepsMade};
ghost use Rattle.som_classmgr.specs.Reached.{IsMadeBy};
ghost use Rattle.som_meta.specs.Numbering.{IsNumbered, key_at};
ghost use Rattle.som_model.specs.Kernel.{kernel};
ghost use Rattle.som_model.specs.Loads.{Loads};
ghost use Rattle.som_model.specs.declared.key.ClassKey.{ClassKey as Key};
ghost use Rattle.som_class_ids.specs.Classes.{classes_of};
ghost use Rattle.std.specs.Prelude.{◌≡◌, ◌↔◌, ◌++◌, ◌∷◌, ◌<◌, [], ℕ, IfOk, List as Seq, OnErr, OnOk};

use som_class_ids::Keyed;
use som_class_kernel::{Linked, copy_classes, lay};
use som_class_table::Classes;
use som_model::{Block, List, NoMemory};
use som_tables::ClassNo;
use std::alloc::Global;
use std::marker::Model;

/// How far a kernel has come.
pub trait Stage {}

/// A kernel without classes to run.
#[derive(Drop)]
pub struct Unlinked;

impl Stage for Unlinked {}

impl Stage for Linked {}

/// A kernel. Contracts see what its stage holds: of a linked one its classes, its main, and what there is of the classes that are made.
pub struct Kernel<S: Stage> {
    pub(crate) stage: S,
}

impl<S: Stage + Drop> Drop for Kernel<S> {
    fn drop(self) {
        let Kernel { stage } = self;
        drop(stage);
    }
}

impl<S: Stage> Model for Kernel<S> {
    ghost Value = { S };

    ghost view = { λ k. k.stage };
}

/// The linked kernel of these classes and main, which makes the kernel's four.
pub(crate) fn kernel_of(
    alloc: Global,
    classes: List<Keyed>,
    main: Block,
) -> Result<Kernel<Linked>, NoMemory>
    requires { Loads (classes_of classes) main }
    ensures classes { IfOk result (λ k. k.classes.classes ≡ kernel ++ classes_of classes) }
    ensures main { IfOk result (λ k. k.main ≡ main) }
    ensures made { IfOk result (λ k. (n : ℕ) → IsMadeIn k n ↔ (n < 4)) }
    ensures all { IfOk result (IsMadeBy [] []) }
{
    let stage = lay(alloc, classes, main)?;
    let _classes = stage.classes();
    Ok(Kernel { stage })
}

impl Kernel<Unlinked> {
    /// A kernel that isn't linked yet. So far it takes no memory.
    pub fn new() -> Result<Kernel<Unlinked>, NoMemory>
        ensures { OnErr result ⊥ }
    {
        Ok(Kernel { stage: Unlinked })
    }

    /// Numbers the classes that are made for a run of main among these, and makes the kernel's four.
    pub fn lay(
        self,
        alloc: Global,
        classes: &List<Keyed>,
        main: &Block,
    ) -> Result<Kernel<Linked>, NoMemory>
        requires { Loads (classes_of classes.now) main.now }
        ensures classes { IfOk result (λ k. k.classes.classes ≡ kernel ++ classes_of classes.now) }
        ensures main { IfOk result (λ k. k.main ≡ main.now) }
        ensures made { IfOk result (λ k. (n : ℕ) → IsMadeIn k n ↔ (n < 4)) }
        ensures all { IfOk result (IsMadeBy [] []) }
    {
        let main = main.copy(alloc)?;
        let classes = copy_classes(alloc, classes.as_slice())?;
        kernel_of(alloc, classes, main)
    }

    /// As `lay`, of classes and a main that are given away: nothing is copied.
    pub fn lay_owned(
        self,
        alloc: Global,
        classes: List<Keyed>,
        main: Block,
    ) -> Result<Kernel<Linked>, NoMemory>
        requires { Loads (classes_of classes) main }
        ensures classes { IfOk result (λ k. k.classes.classes ≡ kernel ++ classes_of classes) }
        ensures main { IfOk result (λ k. k.main ≡ main) }
        ensures made { IfOk result (λ k. (n : ℕ) → IsMadeIn k n ↔ (n < 4)) }
        ensures all { IfOk result (IsMadeBy [] []) }
    {
        kernel_of(alloc, classes, main)
    }
}

impl Kernel<Linked> {
    /// Makes what is needed for a class as far as it isn't made: itself, and with each class its parents and its metaclass, lower ranks first. Where memory runs
    /// out some of it may be made.
    pub fn reach(&mut self, alloc: Global, class: ClassNo) -> Result<(), NoMemory>
        requires { IsNumbered self.old.classes class }
        ensures classes { self.new.classes ≡ self.old.classes }
        ensures main { self.new.main ≡ self.old.main }
        ensures keeps { KeepsMade self.old.parts self.new.parts }
        ensures made { OnOk result ((n : ℕ) → IsReached self.old.classes self.old.parts.made class n → IsMadeIn self.new n) }
        ensures only { (n : ℕ) → IsMadeIn self.new n → IsReached self.old.classes self.old.parts.made class n }
        ensures all { (roots tried : Seq Key) → IsMadeBy roots tried self.old → OnOk result (IsMadeBy (key_at self.old.classes class ∷ roots) tried self.new) }
        ensures some { (roots tried : Seq Key) → IsMadeBy roots tried self.old → OnErr result (IsMadeBy roots (key_at self.old.classes class ∷ tried) self.new) }
    {
        self.stage.reach(alloc, class)
    }

    /// The classes by their numbers, made or not, with their bodies: so they are lent in this crate alone.
    pub(crate) fn classes(&self) -> &Classes
        ensures value { result.now ≡ self.now.classes }
        ensures linked { IsLinked self.now }
        ensures loaded { AreLoaded self.now.classes }
    {
        self.stage.classes()
    }

    /// What each linked kernel keeps: its classes are the kernel's and others that can be loaded with its main, and what is made has the rows, names and
    /// hooks of these classes.
    pub fn know(&self)
        ensures linked { IsLinked self.now }
        ensures loaded { AreLoaded self.now.classes }
    {
        let _classes = self.classes();
    }
}
