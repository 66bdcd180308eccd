//! How many clients take turns, and how many turns they take.

/// The most clients.
pub const MAX_CLIENTS: usize = 10;

/// The most turns of a round.
pub const MAX_PATTERN: usize = 1_000;

/// The most rounds.
pub const MAX_ROUNDS: u32 = 10_000;
