//! A store in memory, for tests, whose faults are planned by the number of a call.

ghost use Rattle.som_io.specs.Calls.{after_next, fails_next, none_made, set_to_fail};
ghost use Rattle.som_io.specs.Leaves.{leaving, left_by};
ghost use Rattle.som_io.specs.MemStore.{calls_of, files_among, files_of, puts_of};
ghost use Rattle.som_io.specs.Store.{Finds, Holds};
ghost use Rattle.som_io.specs.declared.leaves.FailingPut.{FailingPut};
ghost use Rattle.som_io.specs.declared.leaves.Leaves.TheVariants as leaves_kinds;
ghost use Rattle.som_io.specs.declared.store.Got.TheVariants as gets;
ghost use Rattle.som_io.specs.declared.store.Put.TheVariants as puts;
ghost use Rattle.std.specs.FinMap as finmap;
ghost use Rattle.std.specs.Option.{option_copied};
ghost use Rattle.std.specs.Prelude.{◌≡◌, ◌≢◌, ◌↔◌, ◌⊎◌, [], ◌∷◌, ◌++◌, Some, IsTrue, OnErr, OnOk};

use crate::counter::Counter;
use crate::leaves::{FailingPut, Leaves, left_by};
use crate::store::{Got, Put, Store};
use som_model::{List, NoMemory, Text};
use std::alloc::Global;
use std::collections::BTreeMap;

/// A store in memory, of which calls can be set to fail. A put that fails leaves what was said of it, and else the old bytes.
/// Its clauses say which call fails, so they are more than those of `Store`, which follow from them.
pub struct MemStore {
    alloc: Global,
    files: BTreeMap<Text, List<u8>>,
    counter: Counter,
    failing: Vec<FailingPut>,
}

impl Drop for MemStore {
    fn drop(self) {
        let MemStore {
            alloc: _,
            files,
            counter,
            failing,
        } = self;
        drop(files);
        drop(counter);
        drop(failing);
    }
}

// What stands under a name.
fn found<'a>(files: &'a BTreeMap<Text, List<u8>>, name: &Text) -> Option<&'a List<u8>>
    ensures { option_copied result ≡ finmap.get (files_among files.now.entries) name.now }
{
    files.get(name)
}

// Puts copies of the bytes under a name.
fn set(
    alloc: Global,
    files: &mut BTreeMap<Text, List<u8>>,
    name: &Text,
    bytes: &List<u8>,
) -> Result<(), NoMemory>
    ensures ok { OnOk result (files_among files.new.entries
        ≡ finmap.insert (files_among files.old.entries) name.now bytes.now) }
    ensures err { OnErr result (files_among files.new.entries ≡ files_among files.old.entries) }
{
    files.insert(name.copy(alloc)?, bytes.copy(alloc)?)?;
    Ok(())
}

// Takes away what stands under a name.
fn unset(files: &mut BTreeMap<Text, List<u8>>, name: &Text)
    ensures { files_among files.new.entries ≡ finmap.remove (files_among files.old.entries) name.now }
{
    let _old = files.remove(name);
}

// Leaves under a name what a put of the bytes is to leave that fails.
fn leave(
    alloc: Global,
    files: &mut BTreeMap<Text, List<u8>>,
    leaves: Leaves,
    name: &Text,
    bytes: &List<u8>,
) -> Put
    ensures never { result ≢ puts.Done }
    ensures sure { leaves ≢ leaves_kinds.New → result ≡ puts.Failed }
    ensures left { result ≡ puts.Failed → files_among files.new.entries ≡ leaving leaves (files_among files.old.entries) name.now bytes.now }
    ensures held { Holds (Some (files_among files.old.entries)) (Some (files_among files.new.entries)) name.now bytes.now result }
{
    match leaves {
        Leaves::Old => Put::Failed,
        Leaves::New => match set(alloc, files, name, bytes) {
            Ok(()) => Put::Failed,
            Err(NoMemory) => Put::NoMemory,
        },
        Leaves::Nothing => {
            unset(files, name);
            Put::Failed
        }
    }
}

impl MemStore {
    pub fn new(alloc: Global) -> MemStore
        ensures files { files_of result ≡ finmap.empty }
        ensures calls { calls_of result ≡ none_made }
        ensures puts { puts_of result ≡ [] }
        ensures calm { ⟦<MemStore as Store>⟧.calm result }
    {
        MemStore {
            alloc,
            files: BTreeMap::new(alloc),
            counter: Counter::new(alloc),
            failing: Vec::new(alloc),
        }
    }

    /// Sets the call of this number to fail, and to leave the old bytes where it is a put. Gets and puts are counted together, from 0.
    pub fn fail(&mut self, call: u64) -> Result<(), NoMemory>
        ensures ok { OnOk result (calls_of self.new ≡ set_to_fail (calls_of self.old) call) }
        ensures leaves { OnOk result (puts_of self.new ≡ puts_of self.old ++ record { call = call; leaves = leaves_kinds.Old } ∷ []) }
        ensures err { OnErr result (calls_of self.new ≡ calls_of self.old) }
        ensures puts_stay { OnErr result (puts_of self.new ≡ puts_of self.old) }
        ensures files { files_of self.new ≡ files_of self.old }
    {
        self.fail_put(call, Leaves::Old)
    }

    /// Sets the call of this number to fail, and to leave this where it is a put. What is said last of a call holds.
    pub fn fail_put(&mut self, call: u64, leaves: Leaves) -> Result<(), NoMemory>
        ensures ok { OnOk result (calls_of self.new ≡ set_to_fail (calls_of self.old) call) }
        ensures leaves { OnOk result (puts_of self.new ≡ puts_of self.old ++ record { call = call; leaves = leaves } ∷ []) }
        ensures err { OnErr result (calls_of self.new ≡ calls_of self.old) }
        ensures puts_stay { OnErr result (puts_of self.new ≡ puts_of self.old) }
        ensures files { files_of self.new ≡ files_of self.old }
    {
        self.failing.push(FailingPut { call, leaves })?;
        match self.counter.fail(call) {
            Ok(()) => Ok(()),
            Err(fault) => {
                self.failing.pop();
                Err(fault)
            }
        }
    }
}

impl Store for MemStore {
    ghost files = { λ store. Some (files_of store) };

    ghost faults = { λ store. (calls_of store).faults };

    ghost calm = { λ store. (calls_of store).failing ≡ [] };

    fn get(&mut self, name: &Text) -> Got
        ensures calls { calls_of self.new ≡ after_next (calls_of self.old) }
        ensures puts { puts_of self.new ≡ puts_of self.old }
        ensures failed { (result ≡ gets.Failed) ↔ IsTrue (fails_next (calls_of self.old)) }
        ensures found { Finds (Some (files_of self.old)) name.now result }
        ensures same { files_of self.new ≡ files_of self.old }
    {
        if self.counter.call() {
            return Got::Failed;
        }
        match found(&self.files, name) {
            None => Got::Absent,
            Some(bytes) => match bytes.copy(self.alloc) {
                Ok(copy) => Got::Bytes(copy),
                Err(NoMemory) => Got::NoMemory,
            },
        }
    }

    fn put(&mut self, name: &Text, bytes: &List<u8>) -> Put
        ensures calls { calls_of self.new ≡ after_next (calls_of self.old) }
        ensures puts { puts_of self.new ≡ puts_of self.old }
        ensures failed { result ≡ puts.Failed → IsTrue (fails_next (calls_of self.old)) }
        ensures fails { IsTrue (fails_next (calls_of self.old)) → (result ≡ puts.Failed) ⊎ (result ≡ puts.NoMemory) }
        ensures sure { IsTrue (fails_next (calls_of self.old)) → left_by (puts_of self.old) (calls_of self.old).made ≢ leaves_kinds.New → result ≡ puts.Failed }
        ensures held { Holds (Some (files_of self.old)) (Some (files_of self.new)) name.now bytes.now result }
        ensures left { result ≡ puts.Failed → files_of self.new
            ≡ leaving (left_by (puts_of self.old) (calls_of self.old).made) (files_of self.old) name.now bytes.now }
    {
        let leaves = left_by(self.failing.as_slice(), self.counter.made());
        if self.counter.call() {
            return leave(self.alloc, &mut self.files, leaves, name, bytes);
        }
        match set(self.alloc, &mut self.files, name, bytes) {
            Ok(()) => Put::Done,
            Err(NoMemory) => Put::NoMemory,
        }
    }

    ghost bounded = { λ store. store.counter.bounded };
}
