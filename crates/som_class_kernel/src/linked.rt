//! The linked kernel's contents: how it is laid, and how classes are reached, that is, made with their needs.

ghost use Rattle.som_class_table.specs.Loaded.{AreLoaded};
ghost use Rattle.som_class_kernel.specs.Linked.{IsLinked, IsMadeIn};
ghost use Rattle.som_class_loaded.specs.Made.{AreParts, IsReached, KeepsMade};
ghost use Rattle.som_class_loaded.specs.Making.{parts_of};
ghost use Rattle.som_class_table.specs.Making.{HaveNeeds, IsMarked};
ghost use Rattle.som_meta.specs.Numbering.{IsNumbered};
ghost use Rattle.som_model.specs.Kernel.{kernel};
ghost use Rattle.som_model.specs.Loads.{Loads};
ghost use Rattle.som_class_ids.specs.Classes.{classes_of};
ghost use Rattle.std.specs.Prelude.{◌≡◌, ◌↔◌, ◌++◌, ◌<◌, ℕ, IfOk, OnOk};

use crate::entries::{MethodEntry, methods_of};
use som_class_ids::Keyed;
use som_class_load_order::{Closure, to_make};
use som_class_loaded::MadeClasses;
use som_class_table::Classes;
use som_model::{Block, List, NoMemory};
use som_tables::ClassNo;
use std::alloc::Global;
use std::marker::Model;

/// What a linked kernel holds: its classes, the main that they were linked with, the methods that declared classes introduce, and of the classes that are
/// made their rows, names and hooks.
pub struct Linked {
    pub(crate) closure: Closure,
    pub(crate) main: Block,
    pub(crate) methods: List<List<MethodEntry>>,
    pub(crate) parts: MadeClasses,
}

impl Drop for Linked {
    fn drop(self) {
        let Linked {
            closure,
            main,
            methods,
            parts,
        } = self;
        drop(closure);
        drop(main);
        drop(methods);
        drop(parts);
    }
}

impl Model for Linked {
    ghost use Rattle.som_class_kernel.specs.Kept.{IsHeld};
    ghost use Rattle.som_class_kernel.specs.Linked.{Linkage, linkage};
    ghost use Rattle.som_class_loaded.specs.Making.{parts_of};
    ghost use Rattle.som_model.specs.contracts.key.ClassKey as key;
    ghost use Rattle.som_model.specs.contracts.key.ValueType as kind;
    ghost use Rattle.som_model.specs.contracts.syntax.Block as block;
    ghost use Rattle.std.specs.Coded.{codes};

    ghost Value = { Linkage };

    ghost coded = { Prim.hlevel (codes, key.the_row.coded, kind.the_row.coded, block.the_row.coded) };

    ghost view = { λ l. linkage l.closure l.main (parts_of l.parts) };

    ghost invariant = { λ l. IsHeld (linkage l.closure l.main (parts_of l.parts)) l.methods };
}

/// The kernel's classes are made, and no others.
fn kernel_parts(alloc: Global, closure: &Closure) -> Result<MadeClasses, NoMemory>
    ensures parts { IfOk result (λ made. AreParts closure.now (parts_of made)) }
    ensures made { IfOk result (λ made. (n : ℕ) → IsMarked (parts_of made).made n ↔ (n < 4)) }
    ensures closed { IfOk result (λ made. HaveNeeds closure.now (IsMarked (parts_of made).made)) }
{
    let classes = closure.classes();
    let first = [
        ClassNo::new(0),
        ClassNo::new(1),
        ClassNo::new(2),
        ClassNo::new(3),
    ];
    let _count = classes.count();
    let mut parts = MadeClasses::new(alloc, classes)?;
    parts.make_all(alloc, classes, &first)?;
    Ok(parts)
}

/// Makes what is needed for a class as far as it isn't made.
fn make_needed(
    alloc: Global,
    closure: &Closure,
    parts: &mut MadeClasses,
    class: ClassNo,
) -> Result<(), NoMemory>
    requires class { IsNumbered closure.now class }
    requires parts { AreParts closure.now (parts_of parts.old) }
    requires closed { HaveNeeds closure.now (IsMarked (parts_of parts.old).made) }
    requires som_class { IsMarked (parts_of parts.old).made 1 }
    ensures parts { AreParts closure.now (parts_of parts.new) }
    ensures keeps { KeepsMade (parts_of parts.old) (parts_of parts.new) }
    ensures closed { HaveNeeds closure.now (IsMarked (parts_of parts.new).made) }
    ensures made { OnOk result ((n : ℕ) → IsReached closure.now (parts_of parts.old).made class n → IsMarked (parts_of parts.new).made n) }
    ensures only { (n : ℕ) → IsMarked (parts_of parts.new).made n → IsReached closure.now (parts_of parts.old).made class n }
{
    let order = to_make(alloc, closure, parts.made.as_slice(), class)?;
    parts.make_all(alloc, closure.classes(), order.as_slice())
}

/// The numbers of the classes that are made for a run of main among these, and of the kernel's four, which are made at once, what there is of them.
pub fn lay(alloc: Global, classes: List<Keyed>, main: Block) -> Result<Linked, NoMemory>
    requires { Loads (classes_of classes) main }
    ensures classes { IfOk result (λ l. l.classes.classes ≡ kernel ++ classes_of classes) }
    ensures main { IfOk result (λ l. l.main ≡ main) }
    ensures made { IfOk result (λ l. (n : ℕ) → IsMadeIn l n ↔ (n < 4)) }
{
    let closure = Closure::new(alloc, classes, &main)?;
    let methods = methods_of(alloc, closure.classes())?;
    let parts = kernel_parts(alloc, &closure)?;
    Ok(Linked {
        closure,
        main,
        methods,
        parts,
    })
}

impl Linked {
    /// Makes what is needed for a class as far as it isn't made: itself, and with each class its parents and its metaclass, lower ranks first. Where memory runs
    /// out some of it may be made.
    pub fn reach(&mut self, alloc: Global, class: ClassNo) -> Result<(), NoMemory>
        requires { IsNumbered self.old.classes class }
        ensures classes { self.new.classes ≡ self.old.classes }
        ensures main { self.new.main ≡ self.old.main }
        ensures keeps { KeepsMade self.old.parts self.new.parts }
        ensures made { OnOk result ((n : ℕ) → IsReached self.old.classes self.old.parts.made class n → IsMadeIn self.new n) }
        ensures only { (n : ℕ) → IsMadeIn self.new n → IsReached self.old.classes self.old.parts.made class n }
    {
        make_needed(alloc, &self.closure, &mut self.parts, class)
    }

    /// The classes by their numbers, made or not.
    pub fn classes(&self) -> &Classes
        ensures value { result.now ≡ self.now.classes }
        ensures linked { IsLinked self.now }
        ensures loaded { AreLoaded self.now.classes }
    {
        let classes = self.closure.classes();
        let _count = classes.count();
        classes
    }

    /// The client's main.
    pub fn main(&self) -> &Block
        ensures { result.now ≡ self.now.main }
    {
        &self.main
    }
}
