//! The object store: objects are made, read, written and freed under keys that are used again.

ghost use Rattle.som_objects.specs.Objects.{IsKnown, KeepsKnown, IsGone, HasClass, HasCell, InRange, IsObject, Makes, Writes, Frees};
ghost use Rattle.som_objects.specs.Slots.{HasPlace, Puts, live_slot, slot_at};
ghost use Rattle.std.specs.Option.{option_copied, is_some};
ghost use Rattle.std.specs.Prelude.{◌≡◌, ◌+◌, ◌<◌, [], length, slice_get, IfOk, None, OnOk, OnErr};

use crate::slot::Slot;
use crate::{Cell, Gone, ObjRef};
use slab::Slab;
use som_model::{List, NoMemory};
use som_tables::ClassNo;
use std::alloc::Global;
use std::marker::Model;

/// All objects that were made, by their serials. An object that was freed leaves its key to a later one.
pub struct ObjectStore {
    slots: Slab<Slot>,
    made: u32,
}

impl Drop for ObjectStore {
    fn drop(self) {
        let ObjectStore { slots, made: _ } = self;
        drop(slots);
    }
}

impl Model for ObjectStore {
    ghost use Rattle.som_objects.specs.Objects.{Objects};
    ghost use Rattle.som_objects.specs.Slots.{objects, IsStore};

    ghost Value = { Objects };

    ghost view = { λ s. objects s.slots.slots s.made };

    ghost invariant = { λ s. IsStore s.slots.slots s.made };
}

impl ObjectStore {
    /// The empty store, which takes no memory.
    pub fn new(alloc: Global) -> ObjectStore
        ensures { result ≡ [] }
    {
        ObjectStore {
            slots: Slab::new(alloc),
            made: 0,
        }
    }

    /// How many objects were made, freed ones included.
    pub fn made(&self) -> u32
        ensures { result ≡ length self.now }
    {
        self.made
    }

    /// The serial of the next object. Where none is left, memory is wanting.
    pub fn next_serial(&self) -> Result<u32, NoMemory>
        ensures { IfOk result (λ serial. serial ≡ length self.now + 1) }
    {
        match self.made.checked_add(1) {
            Some(serial) => Ok(serial),
            None => Err(NoMemory),
        }
    }

    /// Makes an object of a class, with these cells. Where no serial is left, or no key below 2^32, memory is wanting.
    pub fn make(&mut self, class: ClassNo, cells: List<Cell>) -> Result<ObjRef, NoMemory>
        ensures made { IfOk result (λ r. Makes self.old self.new r class cells) }
        ensures known { IfOk result (IsKnown self.new) }
        ensures err { OnErr result (self.new ≡ self.old) }
        ensures keeps { KeepsKnown self.old self.new }
    {
        let serial = self.next_serial()?;
        let key = next_key(&self.slots)?;
        let _place = self.slots.insert(Slot {
            serial,
            class,
            cells: cells.into_vec(),
        })?;
        self.made = serial;
        Ok(ObjRef { key, serial })
    }

    /// The class of an object, or Gone where it was freed.
    pub fn class(&self, object: &ObjRef) -> Result<ClassNo, Gone>
        requires { IsKnown self.now object.now }
        ensures class { IfOk result (HasClass self.now object.now) }
        ensures gone { OnErr result (IsGone self.now object.now) }
    {
        match live(&self.slots, object) {
            Some(slot) => Ok(slot.class),
            None => Err(Gone),
        }
    }

    /// The class of an object and its cells, or Gone where it was freed.
    pub fn class_and_cells(&self, object: &ObjRef) -> Result<(ClassNo, &[Cell]), Gone>
        requires { IsKnown self.now object.now }
        ensures object { IfOk result (λ found. IsObject self.now object.now found.0 found.1.now) }
        ensures gone { OnErr result (IsGone self.now object.now) }
    {
        match live(&self.slots, object) {
            Some(slot) => Ok((slot.class, slot.cells.as_slice())),
            None => Err(Gone),
        }
    }

    /// The cell at a place of an object, or Gone where it was freed.
    pub fn read(&self, object: &ObjRef, place: u32) -> Result<&Cell, Gone>
        requires known { IsKnown self.now object.now }
        requires place { InRange self.now object.now place }
        ensures cell { IfOk result (λ cell. HasCell self.now object.now place cell.now) }
        ensures gone { OnErr result (IsGone self.now object.now) }
    {
        match live(&self.slots, object) {
            Some(slot) => Ok(cell_at(&slot.cells, place as usize)),
            None => Err(Gone),
        }
    }

    /// Changes the cell at a place of an object, and takes no memory; or answers Gone where the object was freed.
    pub fn write(&mut self, object: &ObjRef, place: u32, cell: Cell) -> Result<(), Gone>
        requires known { IsKnown self.old object.now }
        requires place { InRange self.old object.now place }
        ensures written { OnOk result (Writes self.old self.new object.now place cell) }
        ensures gone { OnErr result (IsGone self.old object.now) }
        ensures err { OnErr result (self.new ≡ self.old) }
        ensures keeps { KeepsKnown self.old self.new }
    {
        put(&mut self.slots, object, place as usize, cell)
    }

    /// Ends an object, which leaves its key to a later one; or answers Gone where it was freed before.
    pub fn free(&mut self, object: &ObjRef) -> Result<(), Gone>
        requires { IsKnown self.old object.now }
        ensures freed { OnOk result (Frees self.old self.new object.now) }
        ensures gone { OnErr result (IsGone self.old object.now) }
        ensures err { OnErr result (self.new ≡ self.old) }
        ensures keeps { KeepsKnown self.old self.new }
    {
        if !is_live(&self.slots, object) {
            return Err(Gone);
        }
        let _slot = self.slots.remove(object.key as usize);
        Ok(())
    }
}

// The slot of an object, where it is live.
fn live<'a>(slots: &'a Slab<Slot>, object: &ObjRef) -> Option<&'a Slot>
    ensures { option_copied result ≡ live_slot (slot_at slots.now.slots object.now.key) object.now.serial }
{
    match slots.get(object.key as usize) {
        Some(slot) => if slot.serial == object.serial {
            Some(slot)
        } else {
            None
        },
        None => None,
    }
}

fn is_live(slots: &Slab<Slot>, object: &ObjRef) -> bool
    ensures { result ≡ is_some (live_slot (slot_at slots.now.slots object.now.key) object.now.serial) }
{
    live(slots, object).is_some()
}

fn cell_at(cells: &Vec<Cell>, place: usize) -> &Cell
    requires { place < length cells.now.items }
    ensures { slice_get cells.now.items place ≡ Some result.now }
{
    &cells[place]
}

// The key of the next object, if it is below 2^32.
fn next_key(slots: &Slab<Slot>) -> Result<u32, NoMemory>
    ensures { IfOk result (λ key. key ≡ slots.now.vacant_key) }
{
    match u32::try_from(slots.vacant_key()) {
        Ok(key) => Ok(key),
        Err(_) => Err(NoMemory),
    }
}

// Changes a cell in the slot of an object, where it is live.
fn put(slots: &mut Slab<Slot>, object: &ObjRef, place: usize, cell: Cell) -> Result<(), Gone>
    requires { HasPlace slots.old.slots object.now place }
    ensures put { OnOk result (Puts slots.old.slots slots.new.slots object.now place cell) }
    ensures gone { OnErr result (live_slot (slot_at slots.old.slots object.now.key) object.now.serial ≡ None) }
    ensures err { OnErr result (slots.new ≡ slots.old) }
{
    let Some(slot) = slots.get_mut(object.key as usize) else {
        return Err(Gone);
    };
    if slot.serial != object.serial {
        return Err(Gone);
    }
    slot.cells[place] = cell;
    Ok(())
}
