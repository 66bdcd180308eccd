//! The start of a body that does nothing.

ghost use Rattle.som_interp_invoke.specs.Beginning.{Began};
ghost use Rattle.som_interp_invoke.specs.Begun.{IsIdle};
ghost use Rattle.som_interp_loop.specs.Scene.{Scene};
ghost use Rattle.som_objects.specs.declared.cell.Cell.{Cell as Argument};
ghost use Rattle.som_values.specs.declared.reference.Reference.{Reference as To};
ghost use Rattle.std.specs.Prelude.{ℕ, List, Ok};

use crate::Begun;
use som_interp_state::Now;
use som_objects::Cell;

/// A body that does nothing: the task goes on with nil.
pub(crate) fn begin_nothing(begun: Begun) -> Now
    requires { IsIdle begun.what }
    ensures { (c : Scene) (levels : ℕ) (me : To) (args : List Argument) → Began c c begun levels me args (Ok result) }
{
    let _what = begun.what;
    Now::Answering(Cell::Nil)
}
