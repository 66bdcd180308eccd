//! Tasks of a kernel, with a trace that shows nothing, and clients that take turns; both with the procedures of the host.

ghost use Rattle.std.specs.List.{All};
ghost use Rattle.std.specs.Prelude.{◌<◌, ◌^◌, length};

use crate::alone::go_alone;
use crate::beside::go_beside;
use crate::clients::tell_turns;
use crate::fuels::compare_all;
use som_classmgr::{Kernel, Linked};
use som_host::{HostTable, host_entry, host_table};
use som_interp_state::Runtime;
use som_model::{HostCode, List, Text};
use som_test_stepping::NotTaken;
use som_trace::{TraceChoice, TraceFilter, trace_filter};

/// Who goes on.
#[derive(Clone, Copy)]
pub enum Turns {
    /// A task with no others beside it.
    Alone,
    /// Two tasks over one store, one after the other.
    Beside,
    /// A task by single units, beside a run at once.
    Fuels,
}

// Lets tasks of any linked kernel go on.
fn take_by<R: Runtime>(
    rt: &HostRuntime,
    turns: Turns,
    kernel: &mut R,
    digits: &[u8],
    trace: &TraceFilter,
    host: &HostTable,
) -> Result<(), NotTaken> {
    match turns {
        Turns::Alone => go_alone(rt, kernel, digits, trace, host),
        Turns::Beside => go_beside(rt, kernel, digits, trace, host),
        Turns::Fuels => compare_all(rt, kernel, digits, trace, host),
    }
}

/// Lets tasks of a linked kernel go on by the units of digits; calls aren't traced.
pub fn take_on(
    rt: &HostRuntime,
    turns: Turns,
    kernel: &mut Kernel<Linked>,
    digits: &[u8],
) -> Result<(), NotTaken> {
    let alloc = rt.alloc();
    let trace = trace_filter(TraceChoice::Nothing, Box::new(alloc, |_name: &Text| false)?);
    let host = host_table(
        host_entry(HostCode::Min, Box::new(alloc, |x: i32, y: i32| x.min(y))?),
        host_entry(HostCode::Max, Box::new(alloc, |x: i32, y: i32| x.max(y))?),
        host_entry(HostCode::And, Box::new(alloc, |x: i32, y: i32| x & y)?),
        host_entry(HostCode::Or, Box::new(alloc, |x: i32, y: i32| x | y)?),
        host_entry(HostCode::Xor, Box::new(alloc, |x: i32, y: i32| x ^ y)?),
        host_entry(
            HostCode::WrapAdd,
            Box::new(alloc, |x: i32, y: i32| x.wrapping_add(y))?,
        ),
    );
    take_by(rt, turns, kernel, digits, &trace, &host)
}

/// Gives turns to clients, each with a kernel. The host's procedures are made here as above: a function that hands their table
/// back isn't proved.
pub fn turn_all(
    rt: &HostRuntime,
    kernels: &mut List<Kernel<Linked>>,
    turns: &List<u8>,
) -> Result<(), NotTaken>
    requires places { All (λ turn. turn < length kernels.old) turns.now }
    requires short { length turns.now < 2 ^ 32 }
{
    let alloc = rt.alloc();
    let host = host_table(
        host_entry(HostCode::Min, Box::new(alloc, |x: i32, y: i32| x.min(y))?),
        host_entry(HostCode::Max, Box::new(alloc, |x: i32, y: i32| x.max(y))?),
        host_entry(HostCode::And, Box::new(alloc, |x: i32, y: i32| x & y)?),
        host_entry(HostCode::Or, Box::new(alloc, |x: i32, y: i32| x | y)?),
        host_entry(HostCode::Xor, Box::new(alloc, |x: i32, y: i32| x ^ y)?),
        host_entry(
            HostCode::WrapAdd,
            Box::new(alloc, |x: i32, y: i32| x.wrapping_add(y))?,
        ),
    );
    tell_turns(rt, kernels, turns, &host)
}
