//! The law that a client among others prints what it prints alone.

ghost use Rattle.som_cmd_tasks.specs.TasksAnswer.{clients_on};
ghost use Rattle.som_cmd_tasks.specs.TasksEnds.{PrintsAlone};
ghost use Rattle.som_model.specs.declared.program.ClientProgram.{ClientProgram};
ghost use Rattle.som_model.specs.declared.program.Release.{Release};
ghost use Rattle.std.specs.Prelude.{◌≡◌, ℕ, List, Some, slice_get};

/// Whatever turns client programs take on a release, of the lines that the turns bring those of one client are the lines that
/// `run` prints of it with as many units of fuel as the client has turns, each after the client's prefix, and none where it
/// has no turn; and it has the end that it has alone.
pub fn alone_law()
    ensures { (r : Release) (ps : List ClientProgram) (turns : List ℕ) (i : ℕ) (p : ClientProgram) → slice_get ps i ≡ Some p → PrintsAlone r p (clients_on r ps) turns i }
{
    som_turn_laws::shown_law();
    som_turn_laws::meaning_law();
}
