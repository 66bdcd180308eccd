//! What an instruction leaves its body at: going on, or ended with an answer.

use som_objects::Cell;

/// What a body does after one instruction, not what a run came to: it goes on in its code, or ends with an answer.
#[derive(Drop)]
pub enum Outcome {
    GoesOn,
    Answers(Cell),
}
