//! Counts the calls on a store or sink in memory, of which some are set to fail.

ghost use Rattle.std.specs.Prelude.{◌≡◌, ◌<◌, ◌^◌, OnErr, OnOk};

use som_model::NoMemory;
use std::alloc::Global;

/// Counts calls, and those of them that were set to fail.
#[derive(Drop)]
pub struct Counter {
    failing: Vec<u64>,
    made: u64,
    faults: u64,
    ghost bounded: { faults < 2 ^ 64 },
}

impl Counter {
    ghost use Rattle.som_io.specs.Calls.{after_next, counted_by, fails_next};
    ghost use Rattle.som_io.specs.Calls.{none_made, set_to_fail};

    pub fn new(alloc: Global) -> Counter
        ensures { counted_by result ≡ none_made }
    {
        Counter {
            failing: Vec::new(alloc),
            made: 0,
            faults: 0,
        }
    }

    /// Sets the call of this number to fail. Calls are counted from 0.
    pub fn fail(&mut self, call: u64) -> Result<(), NoMemory>
        ensures ok { OnOk result (counted_by self.new ≡ set_to_fail (counted_by self.old) call) }
        ensures err { OnErr result (counted_by self.new ≡ counted_by self.old) }
    {
        self.failing.push(call)?;
        Ok(())
    }

    /// How many calls were made, up to 2^64 - 1.
    pub fn made(&self) -> u64
        ensures { result ≡ (counted_by self.now).made }
    {
        self.made
    }

    /// Counts a call, and answers whether it is to fail.
    pub fn call(&mut self) -> bool
        ensures fails { result ≡ fails_next (counted_by self.old) }
        ensures counted { counted_by self.new ≡ after_next (counted_by self.old) }
    {
        let fails = self.made < u64::MAX && self.failing.contains(&self.made);
        self.made = self.made.saturating_add(1);
        if fails {
            self.faults = self.faults.saturating_add(1);
        }
        fails
    }
}
