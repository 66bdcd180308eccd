//! The command `generate`, from the number of classes to the status.

ghost use Rattle.som_cmd_generate.specs.GenerateAnswer.{IsGenerateAnswer, generate_statuses};
ghost use Rattle.som_cmd_generate.specs.Printing.{ShowsSomeOf};
ghost use Rattle.som_generator.specs.declared.limits.TheConstants.{MAX_CLASSES};
ghost use Rattle.som_io.specs.Outside.{Rose};
ghost use Rattle.som_model.specs.Bytes.{Files};
ghost use Rattle.som_model.specs.Lists.{Mem};
ghost use Rattle.som_cmd_steps.specs.Outcomes.{EndsAs};
ghost use Rattle.som_cmd_steps.specs.Status.{is_calm_status};
ghost use Rattle.std.specs.Prelude.{IsTrue, Some, ◌≡◌, ◌≢◌, ◌≤◌, ◌⊎◌};

use crate::refusing::stop_of;
use crate::running::run_made;
use som_cmd_steps::refuse;
use som_generator::make;
use som_host::HostTable;
use som_io::Sink;
use std::alloc::Global;

/// Makes two releases of so many classes and a client, looks whether the second is accepted against the first, and runs the client on
/// the second: prints how many classes there are, what the client prints and how much fuel is left, or the line of what refuses, and
/// answers the status. No file is read or written.
pub fn generate<K: Sink>(alloc: Global, count: u32, host: &HostTable, out: &mut K) -> u8
    requires { count ≤ MAX_CLASSES }

    // With memory and without a fault of the sink it is the answer, whatever files there are: its text, its status, and the files stay.
    ensures answered { result ≢ 8 → result ≢ 10 → (files : Files) → EndsAs (IsGenerateAnswer count files) result (Some files) (K.written out.old) (K.written out.new) }

    // It ends with one of these statuses.
    ensures statuses { Mem result generate_statuses }

    // The sink failed in this call.
    ensures sink_failed { result ≡ 8 → Rose (K.faults out.old) (K.faults out.new) }

    // What was written before the sink failed or memory ran out is a front of the text.
    ensures front { (result ≡ 8) ⊎ (result ≡ 10) → (files : Files) → ShowsSomeOf (IsGenerateAnswer count files) (K.written out.old) (K.written out.new) }

    // No words are refused here, and no store fails.
    ensures words { result ≢ 2 }
    ensures no_store { result ≢ 6 }

    // Over a sink of which nothing is set to fail, it isn't said to fail.
    ensures calm { K.calm out.old → IsTrue (is_calm_status result) }
{
    match make(alloc, count) {
        Ok(made) => run_made(alloc, count, &made, host, out),
        Err(fault) => refuse(out, &stop_of(alloc, &fault)),
    }
}
