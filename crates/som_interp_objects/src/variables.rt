//! Self's variables, read and assigned, whether self is an object or a class object.

ghost use Rattle.som_semantics.specs.Expressions.{read as read_in};
ghost use Rattle.som_model.specs.Rules.{is_void};
ghost use Rattle.som_semantics.specs.State.{Heap};
ghost use Rattle.som_objects.specs.Objects.{KeepsKnown};
ghost use Rattle.som_interp_state.specs.Holding.{Holding, IsUsable};
ghost use Rattle.som_interp_state.specs.Stored.{Spares};
ghost use Rattle.som_values.specs.Answers.{Answers};
ghost use Rattle.som_values.specs.Shown.{IsNumbered, key_of, shown, showing};
ghost use Rattle.som_interp_objects.specs.Acting.{Acts, Becomes, IsActing, IsAmong, MayAssign, assigned, me_value};
ghost use Rattle.std.specs.Prelude.{◌≡◌, ℕ, IfOk, List as Seq, OnErr, Some, false, length};

use crate::objects::{read_object, write_object};
use crate::statics::{read_class_object, write_class_object};
use som_interp_state::Runtime;
use som_model::{Fault, List};
use som_objects::{Cell, ObjectStore};
use som_tables::ClassNo;
use som_values::{Reference, Stopped};
use std::alloc::Global;

/// Self's variable of a class: of an object what its cell holds, of a class object what its class has for it, and of
/// the class manager object nil. The faults are Nil, where there is no self, and Freed.
pub fn read<R: Runtime>(
    runtime: &R,
    objects: &ObjectStore,
    statics: &Vec<Option<List<Cell>>>,
    me: Option<Reference>,
    class: ClassNo,
    variable: u8,
) -> Result<Cell, Stopped>
    requires class { IsNumbered (R.linked runtime.now).keys class }
    requires acts { IsActing (R.linked runtime.now) (R.made runtime.now) objects.now statics.now.items me }
    ensures means { (xs : Seq ℕ) (h : Heap) → Acts (R.linked runtime.now) (R.made runtime.now) objects.now statics.now.items me xs h
        → Answers (showing (R.linked runtime.now).keys xs) result (read_in (key_of (R.linked runtime.now).keys class) variable (me_value (R.linked runtime.now) xs me) h) }
    ensures usable { (xs : Seq ℕ) (h : Heap) → Acts (R.linked runtime.now) (R.made runtime.now) objects.now statics.now.items me xs h
        → IfOk result (IsUsable (R.linked runtime.now) (R.made runtime.now) xs objects.now) }
{
    match me {
        Some(reference) => { read_of(runtime, objects, statics, reference, class, variable) },
        None => Err(Stopped::Fault(Fault::Nil)),
    }
}

// The variable of a self that isn't nil.
fn read_of<R: Runtime>(
    runtime: &R,
    objects: &ObjectStore,
    statics: &Vec<Option<List<Cell>>>,
    me: Reference,
    class: ClassNo,
    variable: u8,
) -> Result<Cell, Stopped>
    requires class { IsNumbered (R.linked runtime.now).keys class }
    requires acts { IsActing (R.linked runtime.now) (R.made runtime.now) objects.now statics.now.items (Some me) }
    ensures means { (xs : Seq ℕ) (h : Heap) → Acts (R.linked runtime.now) (R.made runtime.now) objects.now statics.now.items (Some me) xs h
        → Answers (showing (R.linked runtime.now).keys xs) result (read_in (key_of (R.linked runtime.now).keys class) variable (me_value (R.linked runtime.now) xs (Some me)) h) }
    ensures usable { (xs : Seq ℕ) (h : Heap) → Acts (R.linked runtime.now) (R.made runtime.now) objects.now statics.now.items (Some me) xs h
        → IfOk result (IsUsable (R.linked runtime.now) (R.made runtime.now) xs objects.now) }
{
    match me {
        Reference::Object(object) => { read_object(runtime, objects, &object, class, variable) },
        Reference::Class(of) => { Ok(read_class_object(runtime, statics, of, class, variable)?) },
        Reference::Manager => Ok(Cell::Nil),
    }
}

/// Self's variable of a class gets a value. The faults are Nil, where there is no self, and Freed; then, and where
/// there is no memory, the task has the objects that it had.
pub fn assign<R: Runtime>(
    alloc: Global,
    runtime: &R,
    objects: &mut ObjectStore,
    statics: &mut Vec<Option<List<Cell>>>,
    me: Option<Reference>,
    class: ClassNo,
    variable: u8,
    cell: Cell,
) -> Result<(), Stopped>
    requires class { IsNumbered (R.linked runtime.now).keys class }
    requires variable { is_void ((R.linked runtime.now).world.variable (key_of (R.linked runtime.now).keys class) variable) ≡ false }
    requires acts { MayAssign (R.linked runtime.now) (R.made runtime.now) objects.old statics.old.items me (key_of (R.linked runtime.now).keys class) }
    ensures means { (xs : Seq ℕ) (h : Heap) → Acts (R.linked runtime.now) (R.made runtime.now) objects.old statics.old.items me xs h → IsUsable (R.linked runtime.now) (R.made runtime.now) xs objects.old cell
        → Becomes (R.linked runtime.now) (R.made runtime.now) xs objects.new statics.new.items result
        (assigned (key_of (R.linked runtime.now).keys class) variable (me_value (R.linked runtime.now) xs me) (shown (showing (R.linked runtime.now).keys xs) cell) h) }
    ensures held { (xs : Seq ℕ) (h : Heap) → Holding (R.linked runtime.now) (R.made runtime.now) xs objects.old statics.old.items h
        → OnErr result (Holding (R.linked runtime.now) (R.made runtime.now) xs objects.new statics.new.items h) }
    ensures err { OnErr result (objects.new ≡ objects.old) }
    ensures others { (ys : Seq ℕ) → (IsAmong ys me → ⊥) → Spares ys objects.old objects.new }
    ensures keeps { KeepsKnown objects.old objects.new }
    ensures count { length objects.new ≡ length objects.old }
{
    match me {
        Some(reference) => {
            assign_on(
                alloc, runtime, objects, statics, reference, class, variable, cell,
            )
        },
        None => Err(Stopped::Fault(Fault::Nil)),
    }
}

// The variable of a self that isn't nil gets the value.
fn assign_on<R: Runtime>(
    alloc: Global,
    runtime: &R,
    objects: &mut ObjectStore,
    statics: &mut Vec<Option<List<Cell>>>,
    me: Reference,
    class: ClassNo,
    variable: u8,
    cell: Cell,
) -> Result<(), Stopped>
    requires class { IsNumbered (R.linked runtime.now).keys class }
    requires variable { is_void ((R.linked runtime.now).world.variable (key_of (R.linked runtime.now).keys class) variable) ≡ false }
    requires acts { MayAssign (R.linked runtime.now) (R.made runtime.now) objects.old statics.old.items (Some me) (key_of (R.linked runtime.now).keys class) }
    ensures means { (xs : Seq ℕ) (h : Heap) → Acts (R.linked runtime.now) (R.made runtime.now) objects.old statics.old.items (Some me) xs h → IsUsable (R.linked runtime.now) (R.made runtime.now) xs objects.old cell
        → Becomes (R.linked runtime.now) (R.made runtime.now) xs objects.new statics.new.items result
        (assigned (key_of (R.linked runtime.now).keys class) variable (me_value (R.linked runtime.now) xs (Some me)) (shown (showing (R.linked runtime.now).keys xs) cell) h) }
    ensures held { (xs : Seq ℕ) (h : Heap) → Holding (R.linked runtime.now) (R.made runtime.now) xs objects.old statics.old.items h
        → OnErr result (Holding (R.linked runtime.now) (R.made runtime.now) xs objects.new statics.new.items h) }
    ensures err { OnErr result (objects.new ≡ objects.old) }
    ensures others { (ys : Seq ℕ) → (IsAmong ys (Some me) → ⊥) → Spares ys objects.old objects.new }
    ensures keeps { KeepsKnown objects.old objects.new }
    ensures count { length objects.new ≡ length objects.old }
{
    runtime.know();
    match me {
        Reference::Object(object) => {
            write_object(runtime, objects, &object, class, variable, cell)
        },
        Reference::Class(of) => {
            Ok(write_class_object(alloc, runtime, statics, of, class, variable, cell)?)
        },
        Reference::Manager => Ok(()),
    }
}
