//! Clients are started: each has a task where its main begins, and the prefix of its lines.

ghost use Rattle.som_interp_task.specs.declared.advanced.Advanced.TheVariants as answers;
ghost use Rattle.som_tasks.specs.Started.{AreStarted, IsStarted};
ghost use Rattle.som_turn_laws.specs.Turns.{client_prefix};
ghost use Rattle.std.specs.Prelude.{◌≡◌, ◌<◌, ℕ, IfOk, Some, length, replicate};

use crate::client::Client;
use som_exec::{Advanced, start};
use som_interp_state::Runtime;
use som_model::{NoMemory, Text};
use som_show::add_number;
use std::alloc::Global;

// What stands before each line of a client: its number, a colon and a blank.
fn prefix_of(alloc: Global, number: usize) -> Result<Text, NoMemory>
    ensures { IfOk result (λ text. text ≡ client_prefix number) }
{
    let mut prefix = Vec::new(alloc);
    add_number(&mut prefix, number as u64)?;
    prefix.extend_from_slice(b": ")?;
    Ok(Text::from_vec(prefix))
}

// A client of this number, where the main of its kernel begins.
fn start_client<R: Runtime>(alloc: Global, kernel: &R, number: usize) -> Result<Client, NoMemory>
    ensures { IfOk result (IsStarted R.world R.linked R.known R.program R.made number kernel.now) }
{
    kernel.know();
    let prefix = prefix_of(alloc, number)?;
    let task = start(alloc, kernel)?;
    Ok(Client { task, prefix })
}

/// A client for each kernel, numbered by its place, where its main begins.
pub(crate) fn start_clients<R: Runtime>(
    alloc: Global,
    kernels: &[R],
) -> Result<Vec<Client>, NoMemory>
    ensures { IfOk result (λ clients. AreStarted R.world R.linked R.known R.program R.made kernels.now clients.items) }
{
    let mut clients = Vec::new(alloc);
    for (number, kernel) in kernels.iter().enumerate() {
        clients.push(start_client(alloc, kernel, number)?)?;
    }
    Ok(clients)
}

/// So many ends of clients that go on.
#[tactic(auto, using(std::proofs::lemmas::List::replicate_more))]
pub(crate) fn going_ends(alloc: Global, count: usize) -> Result<Vec<Advanced>, NoMemory>
    ensures { IfOk result (λ ends. ends.items ≡ replicate count answers.Going) }
{
    let mut ends = Vec::with_capacity(alloc, count)?;
    for _number in 0..count {
        ends.push(Advanced::Going)?;
    }
    Ok(ends)
}
