//! A sink in memory, for tests, whose faults are planned by the number of a write.

ghost use Rattle.som_io.specs.Calls.{after_next, fails_next, none_made, set_to_fail};
ghost use Rattle.som_io.specs.MemSink.{bytes_of, calls_of};
ghost use Rattle.som_io.specs.Sink.{Appends, Takes};
ghost use Rattle.som_io.specs.declared.sink.Sent.TheVariants as sent;
ghost use Rattle.std.specs.Prelude.{◌≡◌, ◌↔◌, [], Some, IsTrue, OnErr, OnOk};

use crate::counter::Counter;
use crate::sink::{Sent, Sink};
use som_model::{List, NoMemory};
use std::alloc::Global;

/// A sink in memory, of which calls can be set to fail.
/// Its clauses say which call fails, so they are more than those of `Sink`, which follow from them.
pub struct MemSink {
    bytes: List<u8>,
    counter: Counter,
}

impl Drop for MemSink {
    fn drop(self) {
        let MemSink { bytes, counter } = self;
        drop(bytes);
        drop(counter);
    }
}

impl MemSink {
    pub fn new(alloc: Global) -> MemSink
        ensures bytes { bytes_of result ≡ [] }
        ensures calls { calls_of result ≡ none_made }
        ensures calm { ⟦<MemSink as Sink>⟧.calm result }
    {
        MemSink {
            bytes: List::new(alloc),
            counter: Counter::new(alloc),
        }
    }

    /// Sets the write of this number to fail. Writes are counted from 0.
    pub fn fail(&mut self, call: u64) -> Result<(), NoMemory>
        ensures ok { OnOk result (calls_of self.new ≡ set_to_fail (calls_of self.old) call) }
        ensures err { OnErr result (calls_of self.new ≡ calls_of self.old) }
        ensures bytes { bytes_of self.new ≡ bytes_of self.old }
    {
        self.counter.fail(call)
    }

    /// The bytes written so far.
    pub fn bytes(&self) -> &List<u8>
        ensures { result.now ≡ bytes_of self.now }
    {
        &self.bytes
    }
}

impl Sink for MemSink {
    ghost written = { λ sink. Some (bytes_of sink) };

    ghost faults = { λ sink. (calls_of sink).faults };

    ghost calm = { λ sink. (calls_of sink).failing ≡ [] };

    fn write(&mut self, piece: &[u8]) -> Sent
        ensures calls { calls_of self.new ≡ after_next (calls_of self.old) }
        ensures failed { (result ≡ sent.Failed) ↔ IsTrue (fails_next (calls_of self.old)) }
        ensures taken { Takes piece.now result }
        ensures appended { Appends (Some (bytes_of self.old)) (Some (bytes_of self.new)) piece.now result }
    {
        if self.counter.call() {
            return Sent::Failed;
        }
        match self.bytes.extend_from_slice(piece) {
            Ok(()) => Sent::Bytes(piece.len()),
            Err(NoMemory) => Sent::NoMemory,
        }
    }

    ghost bounded = { λ sink. sink.counter.bounded };
}
