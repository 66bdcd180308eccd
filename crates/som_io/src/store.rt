//! The trait of stores: what gets and puts answer, and the count of faults.

ghost use Rattle.som_io.specs.Store.{Finds, GetHasCause, Holds, PutHasCause};
ghost use Rattle.som_io.specs.declared.store.Got.TheVariants as gets;
ghost use Rattle.som_io.specs.declared.store.Put.TheVariants as puts;
ghost use Rattle.som_model.specs.Bytes.{Files};
ghost use Rattle.std.specs.Prelude.{◌≡◌, ◌≢◌, ◌<◌, ◌≤◌, ◌^◌, ℕ, List, Option};

use som_model::{List, Text};

/// What a store answers to a get.
#[derive(Drop)]
pub enum Got {
    Bytes(List<u8>),
    Absent,
    Failed,
    NoMemory,
}

/// What a store answers to a put.
#[derive(Clone, Copy, PartialEq, Eq)]
pub enum Put {
    Done,
    Failed,
    NoMemory,
}

/// Bytes under names. A call may fail, and the store counts how often one did.
pub trait Store {
    /// The files, where the store tells them.
    /// One that stands for something outside the program need not.
    ghost files: { Self → Option Files };

    /// How often a call failed. The count never falls, and stays at 2^64 - 1 once it is there.
    ghost faults: { Self → ℕ };

    /// That nothing is set to make a call fail. From a calm state no call fails, the count stays and
    /// the store is calm again, so no run of calls meets a fault: what a program owes where none
    /// comes, it owes over a calm store. A store that can't promise this is never calm.
    ghost calm: { Self → Type 0 };

    fn get(&mut self, name: &Text) -> Got
        ensures found { Finds (files self.old) name.now result }
        ensures same { files self.new ≡ files self.old }

        ensures later { faults self.old ≤ faults self.new }
        ensures cause { GetHasCause (faults self.old) (faults self.new) result }

        ensures calm_stays { calm self.old → calm self.new }
        ensures calm_count { calm self.old → faults self.new ≡ faults self.old }
        ensures calm_answer { calm self.old → result ≢ gets.Failed };

    fn put(&mut self, name: &Text, bytes: &List<u8>) -> Put
        ensures held { Holds (files self.old) (files self.new) name.now bytes.now result }

        ensures later { faults self.old ≤ faults self.new }
        ensures cause { PutHasCause (faults self.old) (faults self.new) result }

        ensures calm_stays { calm self.old → calm self.new }
        ensures calm_count { calm self.old → faults self.new ≡ faults self.old }
        ensures calm_answer { calm self.old → result ≢ puts.Failed };

    /// A count is at most 2^64 - 1.
    ghost bounded: { (store : Self) → faults store < 2 ^ 64 };
}
