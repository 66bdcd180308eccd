//! Standard output as a sink.

ghost use Rattle.std.specs.Prelude.{◌<◌, ◌^◌, None};

use som_io::{Sent, Sink};
use std::io;
use std::io::Write;

/// Standard output. It doesn't tell what was written, and can't promise that no call fails.
#[derive(Drop)]
pub struct StandardOutput<'a, R> {
    runtime: &'a R,
    faults: u64,
    ghost bounded: { faults < 2 ^ 64 },
}

impl<'a, R: Print> StandardOutput<'a, R> {
    pub fn new(runtime: &'a R) -> StandardOutput<'a, R> {
        StandardOutput { runtime, faults: 0 }
    }
}

impl<R: Print> Sink for StandardOutput<'_, R> {
    ghost written = { λ _. None };

    ghost faults = { λ sink. sink.faults };

    ghost calm = { λ _. ⊥ };

    fn write(&mut self, piece: &[u8]) -> Sent {
        match io::writer(self.runtime).write(piece) {
            Ok(count) if count > 0 || piece.is_empty() => Sent::Bytes(count),
            Err(e) if e.kind() == io::ErrorKind::OutOfMemory => Sent::NoMemory,
            _ => {
                self.faults = self.faults.saturating_add(1);
                Sent::Failed
            }
        }
    }

    ghost bounded = { λ sink. sink.bounded };
}
