//! Which of five steps is next in a task.

ghost use Rattle.som_exec.specs.Doing.{HasCode, IsKind};
ghost use Rattle.std.specs.Prelude.{◌≡◌};

use som_interp_body::is_call;
use som_interp_state::{Now, Task};

/// The kind of step that is next in a task: an instruction that makes a call, one that makes none, a call that is made, a body that is
/// invoked, or a value that comes to what waits.
#[derive(Clone, Copy)]
pub(crate) enum Kind {
    Calls,
    Obeys,
    Makes,
    Invokes,
    Resumes,
}

/// What is next in a task; none where a value is answered and nothing waits for it, so that main is over.
#[inline(always)]
pub(crate) fn kind_of(task: &Task) -> Option<Kind>
    requires { HasCode task.now }
    ensures { IsKind task.now result }
{
    match &task.frames.now {
        Now::Running(body) => {
            if is_call(&task.codes, body) {
                return Some(Kind::Calls);
            }
            Some(Kind::Obeys)
        },
        Now::Calling { .. } => Some(Kind::Makes),
        Now::Invoking { .. } => Some(Kind::Invokes),
        Now::Answering(_) => {
            if task.frames.waiting.as_slice().is_empty() {
                return None;
            }
            Some(Kind::Resumes)
        },
    }
}
