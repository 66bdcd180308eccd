//! A frame of a running body: self, place in its code, locals and operands.

use som_objects::Cell;
use som_trace::Place;
use som_values::Reference;

/// The zero value of a type.
#[derive(Clone, Copy)]
pub enum Zero {
    Nil,
    Long,
    Boolean,
    Text,
}

/// A body that has code: how many levels its calls may go, self, which main has none, where it runs, what it answers
/// where it ends without a value, and where in which code it stands. Codes go by their numbers in a table.
#[derive(Drop)]
pub struct Body {
    pub levels: u32,
    pub me: Option<Reference>,
    pub place: Place,
    pub zero: Zero,
    pub code: usize,
    pub at: usize,
    /// The operands, the top last.
    pub operands: Vec<Cell>,
    pub locals: Vec<Cell>,
}
