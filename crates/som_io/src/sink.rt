//! The trait of sinks: what a write answers, and the count of faults.

ghost use Rattle.som_io.specs.Sink.{Appends, Takes, WriteHasCause};
ghost use Rattle.som_io.specs.declared.sink.Sent.TheVariants as sent;
ghost use Rattle.std.specs.Prelude.{◌≡◌, ◌≢◌, ◌<◌, ◌≤◌, ◌^◌, ℕ, List, Option};

/// What a sink answers to a write: how many bytes it took, from the front of the piece.
#[derive(Clone, Copy, PartialEq, Eq)]
pub enum Sent {
    Bytes(usize),
    Failed,
    NoMemory,
}

/// Where text is written to. A write may fail, and the sink counts how often one did.
pub trait Sink {
    /// The bytes written so far, where the sink tells them.
    /// One that stands for something outside the program need not.
    ghost written: { Self → Option (List ℕ) };

    /// How often a call failed. The count never falls, and stays at 2^64 - 1 once it is there.
    ghost faults: { Self → ℕ };

    /// That nothing is set to make a call fail. From a calm state no call fails, the count stays and
    /// the sink is calm again, so no run of calls meets a fault: what a program owes where none
    /// comes, it owes over a calm sink. A sink that can't promise this is never calm.
    ghost calm: { Self → Type 0 };

    fn write(&mut self, piece: &[u8]) -> Sent
        ensures taken { Takes piece.now result }
        ensures appended { Appends (written self.old) (written self.new) piece.now result }

        ensures later { faults self.old ≤ faults self.new }
        ensures cause { WriteHasCause (faults self.old) (faults self.new) result }

        ensures calm_stays { calm self.old → calm self.new }
        ensures calm_count { calm self.old → faults self.new ≡ faults self.old }
        ensures calm_answer { calm self.old → result ≢ sent.Failed };

    /// A count is at most 2^64 - 1.
    ghost bounded: { (sink : Self) → faults sink < 2 ^ 64 };
}
