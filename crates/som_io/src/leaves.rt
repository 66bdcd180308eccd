//! The type of what a failed put leaves in a store in memory, and what was said of a call's number.

ghost use Rattle.som_io.specs.Leaves.{left_by};
ghost use Rattle.std.specs.Prelude.{◌≡◌};

/// What a put that fails leaves under its name: the old bytes, the new ones, or none.
#[derive(Clone, Copy, PartialEq, Eq)]
pub enum Leaves {
    Old,
    New,
    Nothing,
}

/// A call that was set to fail, and what it leaves where it is a put.
#[derive(Clone, Copy, PartialEq, Eq)]
pub struct FailingPut {
    pub call: u64,
    pub leaves: Leaves,
}

/// What the call of this number leaves, as was said last of it.
pub fn left_by(puts: &[FailingPut], call: u64) -> Leaves
    ensures { result ≡ left_by puts.now call }
{
    let mut leaves = Leaves::Old;
    for put in puts {
        if put.call == call {
            leaves = put.leaves;
        }
    }
    leaves
}
