//! The number of a body, as a look-up answers it.

use std::marker::Model;

/// The number of a body, which a look-up answers and nothing else.
#[derive(Clone, Copy, PartialEq, Eq)]
pub struct BodyNo(pub(crate) u64);

impl Model for BodyNo {
    ghost use Rattle.std.specs.Prelude.{ℕ};

    ghost Value = { ℕ };

    ghost view = { λ b. b.0 };

    ghost inverse = { λ n. record { 0 = n } };
}
