//! What is tested of calls and bodies never fails in a typed run: the law is the contract of a function without a body.

ghost use Rattle.som_semantics.specs.World.{World};
ghost use Rattle.som_interp_state.specs.Tests.{runner_tests};
ghost use Rattle.som_machine_laws.specs.Implied.{AreImplied};

/// The tests ask no more than what is always there in a typed run.
pub fn tests_law()
    ensures { (w : World) → AreImplied w (runner_tests w) }
{}
