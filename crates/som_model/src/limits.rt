//! The limits of texts, images and runs. `docs/LIMITS.md` says where each is tested.

/// Bytes of all texts of one command together; images aren't counted.
pub const MAX_BYTES: u32 = 4_194_304;

/// Bytes of a word.
pub const MAX_NAME: u32 = 255;

/// Bytes of a text: of a literal after its escapes, and of a value in a running program.
pub const MAX_TEXT: u32 = 65_535;

/// Statements, expressions and pairs of parentheses inside one another in a body.
pub const MAX_NESTING: u32 = 32;

/// Classes of a library.
pub const MAX_LIBRARY_CLASSES: u32 = 4_096;

/// Classes of a client, those of the library not counted.
pub const MAX_CLIENT_CLASSES: u32 = 256;

/// Classes of all modules that are laid out together for a run, the kernel's not counted.
pub const MAX_LAID_CLASSES: u32 = 8_192;

/// Parents of a class.
pub const MAX_PARENTS: u32 = 16;

/// Entries of a class's effective release order.
pub const MAX_ENTRIES: u32 = 256;

/// Overrides of a class.
pub const MAX_OVERRIDES: u32 = 256;

/// Methods for which a class selects a parent.
pub const MAX_SELECTS: u32 = 256;

/// Instance variables of a class, those of attributes counted.
pub const MAX_VARIABLES: u32 = 64;

/// Parameters of a method.
pub const MAX_PARAMETERS: u32 = 16;

/// Parameters and locals that are visible at one point.
pub const MAX_LOCALS: u32 = 256;

/// How deep calls go in a running program: main runs at depth 0, and a body one deeper than its caller.
pub const MAX_DEPTH: u32 = 4_096;

/// The greatest major or minor version.
pub const MAX_VERSION: u32 = 2_147_483_647;

/// The fuel of a run for which no fuel is asked.
pub const DEFAULT_FUEL: u32 = 1_000_000;

/// The greatest fuel that can be asked for.
pub const MAX_FUEL: u32 = 1_000_000_000;
