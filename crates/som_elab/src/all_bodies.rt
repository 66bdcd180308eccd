//! The bodies of a whole module and its main, after the rules and limits on them.

ghost use Rattle.som_elab_methods.specs.Bodies.{bodies_breach};
ghost use Rattle.som_elab.specs.Contexts as spec;
ghost use Rattle.som_elab.specs.Contexts.{IsModuleContext, IsUnlimitedContext, StandAfterOthers, among_in, checked_steps, module_steps};
ghost use Rattle.som_elab.specs.Blocks.{Answers, elaborated_main, keeping};
ghost use Rattle.som_elab_methods.specs.Limits.{limit_passed};
ghost use Rattle.som_elab_methods.specs.Texts.{given};
ghost use Rattle.som_verify_classes.specs.Modules.{classes_of};
ghost use Rattle.som_verify_classes.specs.Told.{Tells};
ghost use Rattle.som_sema_drafts.specs.Drafts.{plain_drafts};
ghost use Rattle.som_verify_forms.specs.Knowing.{IsKnowledge, all_of};
ghost use Rattle.std.specs.Prelude.{◌≡◌, option_copied, None};

use crate::class_bodies::{ClassBodies, refusal};
use crate::classes::all_bodies;
use crate::contexts::ModuleContext;
use som_ast::BlockText;
use som_elab_body::main_body;
use som_elab_methods::{ModuleTexts, bodies_counted, bodies_named, limits_kept};
use som_model::{Block, List};
use som_sema_drafts::{Draft, Refused, refused};
use som_verify_classes::VerifyFault;
use som_verify_forms::Knowledge;
use std::alloc::Global;

/// The bodies of all classes of a module, and the block of main.
#[derive(Drop)]
pub struct AllBodies {
    pub classes: List<ClassBodies>,
    pub main: Block,
}

/// The bodies of classes, which are the last of all classes, and of main, if there is a main. The rules on which bodies
/// there are come first, and then the limits.
pub fn checked_bodies(
    alloc: Global,
    context: &ModuleContext,
    drafts: &[Draft],
    texts: &ModuleTexts,
    main: Option<&BlockText>,
) -> Result<AllBodies, Refused>
    requires { IsUnlimitedContext context.now (plain_drafts drafts.now) }
    ensures { Answers (checked_steps (among_in context.now) context.now.scope.now.module (given texts.now.all.now) (plain_drafts drafts.now) (option_copied main.entry)) result }
{
    match bodies_stand(alloc, &context.known, drafts, texts) {
        Ok(()) => within_limits(alloc, context, drafts, texts, main),
        Err(fault) => Err(refused(fault)),
    }
}

fn bodies_stand(
    alloc: Global,
    known: &Knowledge,
    drafts: &[Draft],
    texts: &ModuleTexts,
) -> Result<(), VerifyFault>
    requires { IsKnowledge known.now }
    ensures { Tells (bodies_breach (all_of known.now) (plain_drafts drafts.now) (given texts.now.all.now)) result }
{
    bodies_named(alloc, known, drafts, texts)?;
    bodies_counted(alloc, drafts, texts)
}

fn within_limits(
    alloc: Global,
    context: &ModuleContext,
    drafts: &[Draft],
    texts: &ModuleTexts,
    main: Option<&BlockText>,
) -> Result<AllBodies, Refused>
    requires { IsUnlimitedContext context.now (plain_drafts drafts.now) }
    ensures { Answers (keeping (limit_passed (plain_drafts drafts.now))
        (module_steps (among_in context.now) context.now.scope.now.module (given texts.now.all.now) (plain_drafts drafts.now) (option_copied main.entry))) result }
{
    limits_kept(alloc, drafts)?;
    made_bodies(alloc, context, drafts, texts, main)
}

fn made_bodies(
    alloc: Global,
    context: &ModuleContext,
    drafts: &[Draft],
    texts: &ModuleTexts,
    main: Option<&BlockText>,
) -> Result<AllBodies, Refused>
    requires context { IsModuleContext context.now }
    requires stand { StandAfterOthers context.now.scope.now.module (classes_of context.now.known.classes.now) (plain_drafts drafts.now) }
    requires limits { limit_passed (plain_drafts drafts.now) ≡ None }
    ensures { Answers (module_steps (among_in context.now) context.now.scope.now.module (given texts.now.all.now) (plain_drafts drafts.now) (option_copied main.entry)) result }
{
    let classes = all_bodies(alloc, context, drafts, texts)?;
    let main = main_block(alloc, context, main)?;
    Ok(AllBodies { classes, main })
}

// Without a main the block is empty.
fn main_block(
    alloc: Global,
    context: &ModuleContext,
    main: Option<&BlockText>,
) -> Result<Block, Refused>
    requires { IsModuleContext context.now }
    ensures { Answers (spec.main_block (among_in context.now) (option_copied main.entry)) result }
{
    match main {
        None => Ok(Block {
            statements: List::new(alloc),
        }),
        Some(text) => written_main(alloc, context, text),
    }
}

fn written_main(alloc: Global, context: &ModuleContext, text: &BlockText) -> Result<Block, Refused>
    requires { IsModuleContext context.now }
    ensures { Answers (elaborated_main (among_in context.now) text.now) result }
{
    match main_body(alloc, &context.known, &context.search, context.scope, text) {
        Ok(block) => Ok(block),
        Err(fault) => Err(refusal(alloc, b"main", b"-", fault)?),
    }
}
