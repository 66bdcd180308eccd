//! How large the parts of a tree are: what is larger or seldom stands behind a pointer.

use crate::{Expr, Stmt};
use std::mem::size_of;

const _: () = prove!(size_of::<Stmt>() == 32);

const _: () = prove!(size_of::<Expr>() == 56);
