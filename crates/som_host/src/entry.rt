//! One procedure of the host: its code, and a closure that is proved to answer for it.

ghost use Rattle.som_host.specs.Closures.{Answers};
ghost use Rattle.som_semantics.specs.Values.{host_number};
ghost use Rattle.std.specs.Prelude.{◌≡◌};

use som_model::HostCode;

/// A procedure of the host: its code, and a closure of which it is known that it answers what the code stands for.
#[derive(Drop)]
pub struct HostEntry {
    pub(crate) code: HostCode,
    pub(crate) f: Box<dyn Fn(i32, i32) -> i32>,
    ghost answers: { Answers (pre f) (post f) code },
}

impl HostEntry {
    pub(crate) fn answer(&self, a: i32, b: i32) -> i32
        ensures { result ≡ host_number self.now.code a b }
    {
        (self.f)(a, b)
    }
}
