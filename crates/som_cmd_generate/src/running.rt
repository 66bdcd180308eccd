//! Links the generated client with the second release, and interprets its main.

ghost use Rattle.som_cliimage.specs.Limits as programs;
ghost use Rattle.som_cmd_generate.specs.AfterMain.{EndsAfter};
ghost use Rattle.som_cmd_generate.specs.GenerateAnswer.{client_run, generated_text, ran_text};
ghost use Rattle.som_cmd_generate.specs.Printing.{Prints};
ghost use Rattle.som_generator.specs.Making.{IsMade};
ghost use Rattle.som_libimage.specs.Limits as releases;
ghost use Rattle.som_link_check.specs.Pairs.{obstacle};
ghost use Rattle.som_model.specs.Classes.{classes as all_classes};
ghost use Rattle.som_semantics.specs.Means.{means, means_in};
ghost use Rattle.som_semantics.specs.RunText.{run_status};
ghost use Rattle.som_model.specs.declared.limits.TheConstants.{DEFAULT_FUEL};
ghost use Rattle.som_interp_task.specs.declared.outcome.Outcome.TheVariants as outcomes;
ghost use Rattle.std.specs.Prelude.{IfOk, None, ◌≡◌, ◌≢◌};

use crate::printing::{print_left, print_number};
use som_classmgr::{Kernel, Linked};
use som_cmd_main::run_unseen;
use som_generator::Made;
use som_host::HostTable;
use som_interp_state::Runtime;
use som_interp_task::Outcome;
use som_io::{Sending, Sink};
use som_link_check::LinkFault;
use som_link_limits::counted_law;
use som_model::{ClientProgram, DEFAULT_FUEL, NoMemory, Release};
use std::alloc::Global;

// Writes how many units are left where main is over, and answers the status.
fn end_run<K: Sink>(alloc: Global, outcome: &Outcome, left: u32, out: &mut K) -> u8
    ensures ends { EndsAfter outcome.now left (K.faults out.old) (K.faults out.new) (K.written out.old) (K.written out.new) result }
    ensures calm { K.calm out.old → outcome.now ≢ outcomes.SinkFailed → result ≢ 8 }
{
    match outcome {
        Outcome::Done => print_left(alloc, left, out),
        Outcome::SourceFault { .. } => 1,
        Outcome::Spent => 9,
        Outcome::SinkFailed => 8,
        Outcome::NoMemory => 10,
    }
}

// Runs the main of a linked kernel with so much fuel, writes how much of it is left, and answers the status.
#[tactic(auto, using(crate::proofs::MainLaws::not_begun))]
fn run_kernel<R: Runtime, K: Sink>(
    alloc: Global,
    runtime: &mut R,
    fuel: u32,
    host: &HostTable,
    out: &mut K,
) -> u8
    ensures prints { Prints (ran_text (means_in (R.world runtime.old) (R.program runtime.old) fuel)) (run_status (means_in (R.world runtime.old) (R.program runtime.old) fuel)) (K.faults out.old) (K.faults out.new) (K.written out.old) (K.written out.new) result }
    ensures calm { K.calm out.old → result ≢ 8 }
{
    match run_unseen(alloc, runtime, fuel, host, out) {
        Ok(finished) => end_run(alloc, &finished.outcome, finished.left, out),
        Err(NoMemory) => 10,
    }
}

// The kernel of a client and of a release that keeps what the client was compiled against.
fn link(
    alloc: Global,
    release: &Release,
    program: &ClientProgram,
) -> Result<Kernel<Linked>, NoMemory>
    requires clear { obstacle release.now program.now ≡ None }
    requires release { releases.IsWithinLimits release.now }
    requires program { programs.IsWithinLimits program.now }
    ensures classes { IfOk result (λ k. k.classes.classes ≡ all_classes release.now program.now) }
    ensures main { IfOk result (λ k. k.main ≡ program.now.main) }
{
    counted_law();
    match Kernel::new()?.link(alloc, release, program) {
        Ok(kernel) => Ok(kernel),
        Err(LinkFault::NoMemory) => Err(NoMemory),
        Err(_) => unreachable!(),
    }
}

// Runs the client on the release, and writes how much fuel is left.
#[tactic(auto, using(crate::proofs::MainLaws::not_begun))]
fn run_client<K: Sink>(
    alloc: Global,
    release: &Release,
    program: &ClientProgram,
    host: &HostTable,
    out: &mut K,
) -> u8
    requires clear { obstacle release.now program.now ≡ None }
    requires release { releases.IsWithinLimits release.now }
    requires program { programs.IsWithinLimits program.now }
    ensures prints { Prints (ran_text (means release.now program.now DEFAULT_FUEL)) (run_status (means release.now program.now DEFAULT_FUEL)) (K.faults out.old) (K.faults out.new) (K.written out.old) (K.written out.new) result }
    ensures calm { K.calm out.old → result ≢ 8 }
{
    match link(alloc, release, program) {
        Ok(mut kernel) => run_kernel(alloc, &mut kernel, DEFAULT_FUEL, host, out),
        Err(NoMemory) => 10,
    }
}

/// Writes how many classes there are, runs the client on the second release, writes how much fuel is left, and answers the status.
#[tactic(auto, using(crate::proofs::Clear::nothing_in_the_way, crate::proofs::Clear::second_within, crate::proofs::Clear::client_within))]
pub fn run_made<K: Sink>(
    alloc: Global,
    count: u32,
    made: &Made,
    host: &HostTable,
    out: &mut K,
) -> u8
    requires { IsMade count made.now }
    ensures prints { Prints (generated_text count (client_run made.now)) (run_status (client_run made.now)) (K.faults out.old) (K.faults out.new) (K.written out.old) (K.written out.new) result }
    ensures calm { K.calm out.old → result ≢ 8 }
{
    match print_number(alloc, b"classes ", count, out) {
        Sending::Whole => run_client(alloc, &made.second.release, &made.client.program, host, out),
        Sending::Failed => 8,
        Sending::NoMemory => 10,
    }
}
