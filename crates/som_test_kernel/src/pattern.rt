//! The turns of a pattern of digits.

ghost use Rattle.std.specs.List.{All};
ghost use Rattle.std.specs.Prelude.{◌<◌, IfOk};

use crate::query_fault::QueryFault;
use som_model::List;
use std::alloc::Global;

// The place of a client that a digit tells, where there are so many.
fn place_of(digit: u8, clients: usize) -> Result<u8, QueryFault>
    ensures { IfOk result (λ place. place < clients) }
{
    match digit {
        b'0'..=b'9' if usize::from(digit - b'0') < clients => Ok(digit - b'0'),
        _ => Err(QueryFault::Word),
    }
}

/// The turns of a pattern of digits, each the place of one of so many clients.
pub fn turns_of(alloc: Global, pattern: &[u8], clients: usize) -> Result<List<u8>, QueryFault>
    ensures { IfOk result (λ turns. All (λ turn. turn < clients) turns) }
{
    let mut turns = List::new(alloc);
    for digit in pattern {
        turns.push(place_of(*digit, clients)?)?;
    }
    Ok(turns)
}
