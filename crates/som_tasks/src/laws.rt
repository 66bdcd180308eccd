//! Laws of tasks beside each other, and of clients among others, each the contract of a function that does nothing.

ghost use Rattle.som_interp_loop.specs.Scene.{Scene};
ghost use Rattle.som_interp_task.specs.Advance.{Comes};
ghost use Rattle.som_interp_task.specs.Stands.{Stands};
ghost use Rattle.som_interp_task.specs.declared.advanced.Advanced.{Advanced as Answer};
ghost use Rattle.som_semantics.specs.RunText.{with_prefix};
ghost use Rattle.som_tasks.specs.Beside.{AreApart, StandsBeside};
ghost use Rattle.som_tasks.specs.Taken.{client_of, clients_of};
ghost use Rattle.som_turn_laws.specs.Turns.{alone_lines, client_prefix, from_client, line_shown, turns_lines, turns_of};
ghost use Rattle.std.specs.Prelude.{◌≡◌, ℕ, Bool, List, Option, Some, map, slice_get};

use som_interp_state::Runtime;

/// A task of one kernel stands as it stood after a task of another kernel went on over the same store, if no object was
/// of both; and none is of both afterwards.
pub fn beside_law()
    ensures { (old new other : Scene) (units : ℕ) (shows : List ℕ → Bool) (prefix : List ℕ) (before after : Option (List ℕ)) (answer : Answer) →
        Comes old units shows prefix before after new answer → other.objects ≡ old.objects → Stands other → AreApart old.task.serials other.task.serials
        → StandsBeside other new.objects new.task.serials }
{}

/// Of the lines that the turns of clients over linked kernels bring, those of one client are the lines that the main of its
/// kernel prints alone with as many units as the client has turns, each after the client's prefix, whatever the others do.
pub fn alone_law<R: Runtime>()
    ensures { (kernels : List R) (i : ℕ) (kernel : R) → slice_get kernels i ≡ Some kernel → (turns : List ℕ) →
        map line_shown (from_client i (turns_lines (clients_of R.world R.program kernels) turns))
        ≡ with_prefix (client_prefix i) (alone_lines (client_of R.world R.program kernel) (turns_of i turns)) }
{
    som_turn_laws::shown_law();
}
