//! How large the values are that a step takes from place to place.

use crate::{Now, Waiting};
use som_objects::{Cell, ObjRef};
use std::mem::size_of;

const _: () = prove!(size_of::<ObjRef>() == 8);

const _: () = prove!(size_of::<Cell>() == 16);

// Beyond 128 bytes a move is a call.
const _: () = prove!(size_of::<Option<Now>>() <= 128);

const _: () = prove!(size_of::<Option<Waiting>>() <= 128);
