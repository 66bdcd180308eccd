//! The most classes that may be asked of the generator.

/// The most classes of a release, without the one that the second release has above all others.
pub const MAX_CLASSES: u32 = 4_000;
