//! The dispatcher of the commands on towers.

ghost use Rattle.som_cmd_steps.specs.Outcomes.{EndsAsTold, ShowsSome, StoreFails};
ghost use Rattle.som_cmd_steps.specs.Status.{is_calm_status};
ghost use Rattle.som_cmd_towers.specs.Answer.{IsTowerAnswer, tower_statuses};
ghost use Rattle.som_cmd_towers.specs.Asked.{IsFormed, tower_by};
ghost use Rattle.som_cmd_towers.specs.Ends.{FailsTower, KeepsTowerFiles, TellsTowerLine};
ghost use Rattle.som_io.specs.Outside.{Rose};
ghost use Rattle.som_model.specs.Lists.{Mem};
ghost use Rattle.std.specs.Prelude.{IsTrue, ◌≡◌, ◌≢◌, ◌⊎◌};

use crate::command::TowerCommand;
use som_cmd_tower_check::check_levels;
use som_cmd_tower_make::build_level;
use som_cmd_tower_run::run_tower;
use som_host::HostTable;
use som_io::{Sink, Store};
use std::alloc::Global;

/// Does what is asked for of towers, and answers the status.
pub fn do_tower<S: Store, K: Sink>(
    alloc: Global,
    command: TowerCommand<'_>,
    store: &mut S,
    out: &mut K,
    host: &HostTable,
) -> u8
    requires { IsFormed (tower_by command) }

    // Without faults and with memory it is the answer: its text, its status, its files.
    ensures answered { result ≢ 6 → result ≢ 8 → result ≢ 10 →
        EndsAsTold (IsTowerAnswer (tower_by command.entry)) (S.files store.old) result (S.files store.new) (K.written out.old) (K.written out.new) }

    // Each ends with one of its statuses.
    ensures statuses { Mem result (tower_statuses (tower_by command.entry)) }

    // A run that is refused is told by one line alone.
    ensures one_line { TellsTowerLine (tower_by command.entry) result (K.written out.old) (K.written out.new) }

    // The store failed in this call, and the line that says so is all that was written.
    ensures store_failed { result ≡ 6 → StoreFails (FailsTower (S.files store.old) (tower_by command.entry)) (S.faults store.old) (S.faults store.new) (K.written out.old) (K.written out.new) }

    // The sink failed in this call.
    ensures sink_failed { result ≡ 8 → Rose (K.faults out.old) (K.faults out.new) }

    // What was written before the sink failed or memory ran out is a front of the text.
    ensures front { (result ≡ 8) ⊎ (result ≡ 10) →
        ShowsSome (IsTowerAnswer (tower_by command.entry)) (FailsTower (S.files store.old) (tower_by command.entry)) (S.files store.old) (S.faults store.old) (S.faults store.new) (K.written out.old) (K.written out.new) }

    // No words are refused here.
    ensures words { result ≢ 2 }

    // Over a store and a sink of which nothing is set to fail, neither is said to fail.
    ensures calm { S.calm store.old → K.calm out.old → IsTrue (is_calm_status result) }

    // No file is changed but by `tower make`.
    ensures files { KeepsTowerFiles (tower_by command.entry) (S.files store.old) (S.faults store.old) (S.faults store.new) result (S.files store.new) (K.written out.old) (K.written out.new) }
{
    match command {
        TowerCommand::Make {
            out: name,
            below,
            files,
        } => build_level(alloc, name, below, files, store, out),
        TowerCommand::Check { old, new } => check_levels(alloc, old, new, store, out),
        TowerCommand::Run {
            client,
            below,
            fuel,
        } => run_tower(alloc, client, below, fuel, store, out, host),
    }
}
