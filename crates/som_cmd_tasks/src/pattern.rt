//! The turns that a pattern gives.

ghost use Rattle.som_cmd_tasks.specs.Patterns.{client_of, turns_given};
ghost use Rattle.std.specs.Prelude.{◌≡◌, IfOk, map};

use som_model::{List, NoMemory};
use std::alloc::Global;

// The clients that digits name.
fn clients_of(alloc: Global, pattern: &[u8]) -> Result<Vec<u8>, NoMemory>
    ensures { IfOk result (λ round. round.items ≡ map client_of pattern.now) }
{
    let mut round = Vec::with_capacity(alloc, pattern.len())?;
    for digit in pattern {
        round.push(digit.saturating_sub(b'0'))?;
    }
    Ok(round)
}

/// The turns that a pattern of digits gives in so many rounds.
#[tactic(auto, using(crate::proofs::Turning::one_round_more))]
pub(crate) fn turns_of(alloc: Global, pattern: &[u8], rounds: u32) -> Result<List<u8>, NoMemory>
    ensures { IfOk result (λ turns. turns ≡ turns_given pattern.now rounds) }
{
    let round = clients_of(alloc, pattern)?;
    let mut turns = List::new(alloc);
    for _round in 0..rounds {
        turns.extend_from_slice(round.as_slice())?;
    }
    Ok(turns)
}
