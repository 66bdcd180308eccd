//! Laws of what a client program asks of a release by its own classes and its main.

ghost use Rattle.som_breach_laws.specs.OwnNames.{AreReleased, BindsOwn, base_names};
ghost use Rattle.som_model.specs.Binds.{Binds};
ghost use Rattle.som_model.specs.declared.program.ClientProgram.{ClientProgram};
ghost use Rattle.som_model.specs.declared.program.Release.{Release};
ghost use Rattle.std.specs.Prelude.{◌↔◌};

/// A client program binds to a release exactly where it does by its own classes and its main, and the
/// release has each library class that the faces name which the program was compiled against. These ask
/// nothing else.
pub fn own_binding_law()
    ensures { (p : ClientProgram) (r : Release) → Binds p r ↔ (BindsOwn p r × AreReleased (base_names p.base) r) }
{}
