//! The two kinds of tables: those of methods, and those of variables.

/// What a table is for, methods or variables, which decides what its cells are.
pub trait Kind {
    type Cell: Copy;
}

/// Tables of methods, whose cells are the numbers of bodies.
pub struct MethodKind;

impl Kind for MethodKind {
    type Cell = u64;
}

/// Tables of variables, whose cells are places in an object.
pub struct DataKind;

impl Kind for DataKind {
    type Cell = u32;
}
