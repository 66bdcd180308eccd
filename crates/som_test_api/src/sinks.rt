//! A sink that takes few bytes a write, and fails in mid-line.

ghost use Rattle.std.specs.Prelude.{◌<◌, ◌^◌, Some};

use som_io::{Sending, Sent, Sink, send};
use std::alloc::Global;

/// A sink that takes three bytes a write, and of which one write fails.
#[derive(Drop)]
struct SlowSink {
    bytes: Vec<u8>,
    writes: u64,
    failing: u64,
    faults: u64,
    ghost bounded: { faults < 2 ^ 64 },
}

impl Sink for SlowSink {
    ghost written = { λ sink. Some sink.bytes.items };

    ghost faults = { λ sink. sink.faults };

    ghost calm = { λ _. ⊥ };

    fn write(&mut self, piece: &[u8]) -> Sent {
        if self.writes == self.failing {
            self.faults = self.faults.saturating_add(1);
            return Sent::Failed;
        }
        self.writes = self.writes.saturating_add(1);
        let count = piece.len().min(3);
        let (front, _) = piece.split_at(count);
        match self.bytes.extend_from_slice(front) {
            Ok(()) => Sent::Bytes(count),
            Err(_) => Sent::NoMemory,
        }
    }

    ghost bounded = { λ sink. sink.bounded };
}

// What becomes of a line of which one write fails, and what is written of it.
fn sent(alloc: Global, line: &[u8], failing: u64) -> (Sending, Vec<u8>) {
    let mut out = SlowSink {
        bytes: Vec::new(alloc),
        writes: 0,
        failing,
        faults: 0,
    };
    let sending = send(&mut out, line);
    let SlowSink { bytes, .. } = out;
    (sending, bytes)
}

#[test]
fn a_write_fails_in_mid_line(rt: HostRuntime) {
    let written: [(u64, Sending, &[u8]); 4] = [
        (0, Sending::Failed, b""),
        (2, Sending::Failed, b"Hello,"),
        (4, Sending::Failed, b"Hello, World"),
        (5, Sending::Whole, b"Hello, World!\n"),
    ];
    for (failing, wanted_end, wanted) in written {
        let (end, bytes) = sent(rt.alloc(), b"Hello, World!\n", failing);
        let is_so = end == wanted_end && bytes.as_slice() == wanted;
        assert!(rt; is_so, "write {failing}");
    }
}
