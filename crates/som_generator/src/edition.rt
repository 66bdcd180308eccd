//! The type that tells the two generated releases apart.

/// Which of the two releases.
#[derive(Clone, Copy, PartialEq, Eq)]
pub enum Edition {
    First,
    /// A class stands above all others, and each of these has a method more.
    Second,
}
