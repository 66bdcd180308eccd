//! `build_release` and `elaborate`: syntax trees to a release, or to a client program.

ghost use Rattle.som_elab_methods.specs.Bodies.{bodies_of};
ghost use Rattle.som_elab.specs.Contexts.{FewParameters};
ghost use Rattle.som_elab.specs.Blocks.{Answers};
ghost use Rattle.som_elab.specs.Elaboration.{elaborated_program, elaborated_release};
ghost use Rattle.som_model.specs.Classes.{interface_classes};
ghost use Rattle.som_model.specs.Conforming.{ProgramOk, ReleaseOk};
ghost use Rattle.som_verify_classes.specs.Faces.{faces_breach};
ghost use Rattle.som_sema_scope.specs.Words.{interfaces_of};
ghost use Rattle.std.specs.Prelude.{◌≡◌, IfOk, None};

use crate::elaborated::{ElaboratedModule, elaborate_module};
use som_ast::{BodyFile, IdlFile, MainFile};
use som_model::{ClientProgram, Interface, List, Module, Release};
use som_sema_drafts::Refused;
use std::alloc::Global;

/// The release that the texts of a library stand for, or the first rule that they break or limit that they pass.
pub fn build_release(
    alloc: Global,
    idl: &List<IdlFile>,
    bodies: &List<BodyFile>,
) -> Result<Release, Refused>
    ensures answers { Answers (elaborated_release (interfaces_of idl.now) (bodies_of bodies.now)) result }
    ensures conforms { IfOk result ReleaseOk }
{
    let base = Interface {
        classes: List::new(alloc),
    };
    let made = elaborate_module(alloc, Module::Library, &base, idl, bodies, None)?;
    Ok(Release {
        classes: made.classes,
    })
}

/// The client program that texts stand for which are compiled against a base that conforms, or the first rule that they
/// break or limit that they pass.
pub fn elaborate(
    alloc: Global,
    base: &Interface,
    idl: &List<IdlFile>,
    bodies: &List<BodyFile>,
    main: &MainFile,
) -> Result<ClientProgram, Refused>
    requires conforms { faces_breach (interface_classes base.now) ≡ None }
    requires few { FewParameters (interface_classes base.now) }
    ensures answers { Answers (elaborated_program base.now (interfaces_of idl.now) (bodies_of bodies.now) main.now.block) result }
    ensures conforms { IfOk result ProgramOk }
{
    let main = Some(&main.block);
    let made = elaborate_module(alloc, Module::Client, base, idl, bodies, main)?;
    let base = base.copy(alloc)?;
    let ElaboratedModule { classes, main } = made;
    Ok(ClientProgram {
        base,
        classes,
        main,
    })
}
