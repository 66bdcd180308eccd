//! A slot of the object store: an object's serial, class and cells.

use crate::Cell;
use som_tables::ClassNo;

/// What is kept under a key: an object with its serial.
#[derive(Drop)]
pub(crate) struct Slot {
    pub(crate) serial: u32,
    pub(crate) class: ClassNo,
    pub(crate) cells: Vec<Cell>,
}
