//! The interpreter: a program is run over a linked kernel, the procedures of the host and a sink. A task starts where main begins,
//! goes on by units, and ends as main does.
#![tactic(auto)]

mod advancing;
mod asked;
mod attribute_call;
mod back;
mod burst;
mod calling;
mod choosing;
mod direct_call;
mod entry;
mod finished;
mod first_body;
mod instruction_step;
mod invoking;
mod kept_call;
mod kind;
mod machine;
mod made_call;
mod operands;
mod placing;
mod receiver;
mod resuming;
mod running;
mod spares;
mod telling;
mod turn;
mod value_return;

pub use advancing::advance;
pub use back::put_back;
pub use calling::call_next;
pub use choosing::step_next;
pub use finished::Finished;
pub use instruction_step::obey_next;
pub use invoking::{invoke_next, make_next};
pub use machine::Machine;
pub use resuming::resume_next;
pub use running::{finish, run};
pub use som_interp_task::{Advanced, Outcome, Task, start};
pub use som_trace::{Running, TraceChoice, TraceFilter, trace_filter};
