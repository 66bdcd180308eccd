//! The lines of a run, written to a sink: texts that are printed, calls that a trace shows, and the fault at the end.
#![tactic(auto)]

mod call;
mod filter;
mod key_view;
mod line;
mod manner;
mod name;
mod pieces;
mod running;
mod shown;
mod telling;

pub use call::Call;
pub use filter::{TraceChoice, TraceFilter};
pub use key_view::{ClassKeys, KeyView};
pub use line::Untold;
pub use manner::Manner;
pub use name::name_within;
pub use running::{Place, Running, running_at};
pub use shown::{is_shown, trace_filter};
pub use telling::{tell_call, tell_fault, tell_printed};
