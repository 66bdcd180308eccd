//! The command `tasks`: links clients with a library, and gives them their turns.

ghost use Rattle.som_cmd_steps.specs.Getting.{FailsGetting};
ghost use Rattle.som_cmd_steps.specs.Outcomes.{EndsAsTold, ShowsSome, StoreFails};
ghost use Rattle.som_cmd_steps.specs.Refusing.{TellsRefusal};
ghost use Rattle.som_cmd_steps.specs.Status.{is_calm_status};
ghost use Rattle.som_cmd_tasks.specs.Ends.{EndsTurns};
ghost use Rattle.som_cmd_tasks.specs.Patterns.{AreTurns, turns_given};
ghost use Rattle.som_cmd_tasks.specs.Refusals.{IsTasksRefusal};
ghost use Rattle.som_cmd_tasks.specs.TasksAnswer.{IsTasksAnswer, tasks_statuses};
ghost use Rattle.som_io.specs.Outside.{Rose};
ghost use Rattle.som_model.specs.Lists.{Mem};
ghost use Rattle.som_tasks.specs.Taken.{clients_of};
ghost use Rattle.std.specs.Prelude.{IsTrue, length, ◌∷◌, ◌≡◌, ◌≢◌, ◌⊎◌};

use crate::giving::give_turns;
use crate::linking::link_clients;
use crate::pattern::turns_of;
use som_cmd_steps::refuse;
use som_host::HostTable;
use som_interp_state::Runtime;
use som_io::{Sink, Store};
use som_model::{List, Text};
use std::alloc::Global;

// Gives the turns of a pattern to the clients of these kernels, tells their ends, and answers the status.
fn give_pattern<R: Runtime + Drop, K: Sink>(
    alloc: Global,
    kernels: &mut List<R>,
    pattern: &Text,
    rounds: u32,
    host: &HostTable,
    out: &mut K,
) -> u8
    requires { AreTurns (length kernels.old) (turns_given pattern.now rounds) }
    ensures ends { EndsTurns (clients_of R.world R.program kernels.old) (turns_given pattern.now rounds) (length kernels.old) (K.faults out.old) (K.faults out.new) (K.written out.old) (K.written out.new) result }
    ensures calm { K.calm out.old → result ≢ 8 }
{
    match turns_of(alloc, pattern.as_slice(), rounds) {
        Ok(turns) => give_turns(alloc, kernels, &turns, host, out),
        Err(_) => 10,
    }
}

/// Gives clients on a library the turns of a pattern, so many rounds of it: prints what they print, each line after the number
/// of its client, and then the end of each, or the line that refuses it, and answers the status.
pub fn run_tasks<S: Store, K: Sink>(
    alloc: Global,
    library: &Text,
    pattern: &Text,
    rounds: u32,
    clients: &[Text],
    store: &mut S,
    out: &mut K,
    host: &HostTable,
) -> u8
    requires { AreTurns (length clients.now) (turns_given pattern.now rounds) }
    // Without faults and with memory it is the answer: its text, its status, its files.
    ensures answered { result ≢ 6 → result ≢ 8 → result ≢ 10 →
        EndsAsTold (IsTasksAnswer library.now (turns_given pattern.now rounds) clients.now) (S.files store.old) result (S.files store.new) (K.written out.old) (K.written out.new) }

    // It ends with one of these statuses.
    ensures statuses { Mem result tasks_statuses }

    // A refusal is told by its one line alone.
    ensures one_line { (result ≡ 4) ⊎ (result ≡ 5) ⊎ (result ≡ 7) → TellsRefusal (IsTasksRefusal library.now clients.now) result (K.written out.old) (K.written out.new) }

    // The store failed in this call, and the line that says so is all that was written.
    ensures store_failed { result ≡ 6 → StoreFails (FailsGetting (S.files store.old) (library.now ∷ clients.now)) (S.faults store.old) (S.faults store.new) (K.written out.old) (K.written out.new) }

    // The sink failed in this call.
    ensures sink_failed { result ≡ 8 → Rose (K.faults out.old) (K.faults out.new) }

    // What was written before the sink failed or memory ran out is a front of the text.
    ensures front { (result ≡ 8) ⊎ (result ≡ 10) →
        ShowsSome (IsTasksAnswer library.now (turns_given pattern.now rounds) clients.now) (FailsGetting (S.files store.old) (library.now ∷ clients.now)) (S.files store.old) (S.faults store.old) (S.faults store.new) (K.written out.old) (K.written out.new) }

    // No words are refused here.
    ensures words { result ≢ 2 }

    // Over a store and a sink of which nothing is set to fail, neither is said to fail.
    ensures calm { S.calm store.old → K.calm out.old → IsTrue (is_calm_status result) }

    // No file is changed.
    ensures files { S.files store.new ≡ S.files store.old }
{
    match link_clients(alloc, library, clients, store) {
        Err(stop) => refuse(out, &stop),
        Ok(mut kernels) => give_pattern(alloc, &mut kernels, pattern, rounds, host, out),
    }
}
