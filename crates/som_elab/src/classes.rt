//! The bodies of all classes of a module, and the declarations that hold them.

ghost use Rattle.som_elab.specs.Contexts.{IsModuleContext, StandAfterOthers, among_in, completed, each_steps};
ghost use Rattle.som_elab.specs.Blocks.{Answers, with_blocks};
ghost use Rattle.som_elab_methods.specs.Limits.{limit_passed};
ghost use Rattle.som_elab_methods.specs.Texts.{given};
ghost use Rattle.som_verify_classes.specs.Modules.{classes_of};
ghost use Rattle.som_sema_drafts.specs.Drafts.{plain_drafts};
ghost use Rattle.std.specs.Prelude.{◌≡◌, IfOk, None};

use crate::class_bodies::{ClassBodies, class_bodies};
use crate::contexts::ModuleContext;
use som_elab_methods::ModuleTexts;
use som_model::{ClassDecl, List, NoMemory};
use som_sema_drafts::{Draft, Refused};
use som_verify_classes::KERNEL_CLASSES;
use std::alloc::Global;

/// The bodies of classes, which are the last of all classes, or what is first wrong with one of them.
pub fn all_bodies(
    alloc: Global,
    context: &ModuleContext,
    drafts: &[Draft],
    texts: &ModuleTexts,
) -> Result<List<ClassBodies>, Refused>
    requires context { IsModuleContext context.now }
    requires stand { StandAfterOthers context.now.scope.now.module (classes_of context.now.known.classes.now) (plain_drafts drafts.now) }
    requires limits { limit_passed (plain_drafts drafts.now) ≡ None }
    ensures { Answers (each_steps (among_in context.now) context.now.scope.now.module (given texts.now.all.now) (plain_drafts drafts.now)) result }
{
    let classes = context.known.classes;
    let from = classes.len() - drafts.len() + KERNEL_CLASSES;
    let mut all = List::new(alloc);
    for index in 0..drafts.len() {
        let bodies = class_bodies(alloc, context, from + index, &drafts[index], texts)?;
        all.push(bodies)?;
    }
    Ok(all)
}

/// The declarations of drafts, each with the bodies at its index, all of which are moved.
pub fn completed_classes(
    alloc: Global,
    drafts: Vec<Draft>,
    bodies: List<ClassBodies>,
) -> Result<List<ClassDecl>, NoMemory>
    ensures { IfOk result (λ classes. classes ≡ completed (plain_drafts drafts.entry.items) bodies) }
{
    let mut all = List::new(alloc);
    for (draft, own) in drafts.into_iter().zip(bodies.into_vec()) {
        all.push(completed_class(draft.decl, own))?;
    }
    Ok(all)
}

fn completed_class(decl: ClassDecl, own: ClassBodies) -> ClassDecl
    ensures { result ≡ with_blocks decl own.bodies own.overrides own.selects }
{
    let ClassBodies {
        bodies,
        overrides,
        selects,
    } = own;
    ClassDecl {
        bodies,
        overrides,
        selects,
        ..decl
    }
}
