//! One module through the front end: declarations first, and then its bodies and main.

ghost use Rattle.som_elab.specs.Elaboration as spec;
ghost use Rattle.som_elab_methods.specs.Bodies.{bodies_of};
ghost use Rattle.som_elab.specs.Elaboration.{drafts_over, among_over};
ghost use Rattle.som_elab.specs.Contexts.{FewParameters, ParentsCounted, StandAfterOthers, checked_steps};
ghost use Rattle.som_elab.specs.Modules.{elaborated_module};
ghost use Rattle.som_elab.specs.Blocks.{Answers};
ghost use Rattle.som_elab_methods.specs.Texts.{given};
ghost use Rattle.som_sema_names.specs.Introducers.{AreIntroducers};
ghost use Rattle.som_model.specs.Class.{class_in};
ghost use Rattle.som_model.specs.Classes.{interface_classes};
ghost use Rattle.som_model.specs.declared.key.Module.TheVariants as modules;
ghost use Rattle.som_verify_classes.specs.Faces.{classes_breach, faces_breach};
ghost use Rattle.som_verify_classes.specs.Modules.{classes_of};
ghost use Rattle.som_verify_classes.specs.Places.{with_kernel};
ghost use Rattle.som_sema_scope.specs.ClassNames.{module_in_scope};
ghost use Rattle.som_sema_scope.specs.Words.{interfaces_of, lent};
ghost use Rattle.som_sema_decls.specs.Known.{after_base};
ghost use Rattle.som_sema.specs.Building.{texts_breach};
ghost use Rattle.som_sema_drafts.specs.Drafts.{draft_classes, plain_drafts};
ghost use Rattle.som_verify_forms.specs.Knowing.{IsKnowledge, all_of};
ghost use Rattle.som_verify_types.specs.Bodies.{AreParts};
ghost use Rattle.std.specs.Prelude.{◌≡◌, ℕ, length, map, option_copied, IfOk, None};

use crate::{AllBodies, ModuleContext, checked_bodies, completed_classes};
use som_ast::{BlockText, BodyFile, BodyText, IdlFile, IdlInterface};
use som_builtins::kernel_faces;
use som_elab_methods::{ModuleTexts, all_texts};
use som_model::{Block, ClassDecl, Interface, List, Module, NoMemory};
use som_sema::{all_interfaces, build_faces};
use som_sema_decls::known_classes;
use som_sema_drafts::{Draft, Refused, refused};
use som_sema_names::{Introducers, MethodSearch, introducers_of, marked_rows};
use som_sema_scope::{Scope, scope_of};
use som_verify_classes::{Declared, KERNEL_CLASSES};
use som_verify_forms::{Knowledge, know};
use som_verify_parents::bare_classes;
use som_verify_types::{Parts, parts_of};
use std::alloc::Global;

/// The classes of a module, and its main.
#[derive(Drop)]
pub struct ElaboratedModule {
    pub classes: List<ClassDecl>,
    pub main: Block,
}

/// What texts stand for that are compiled against a base, or the first rule that they break or limit that they pass.
pub fn elaborate_module(
    alloc: Global,
    own_module: Module,
    base: &Interface,
    idl: &List<IdlFile>,
    bodies: &List<BodyFile>,
    main: Option<&BlockText>,
) -> Result<ElaboratedModule, Refused>
    requires conforms { faces_breach (interface_classes base.now) ≡ None }
    requires few { FewParameters (interface_classes base.now) }
    ensures { Answers (elaborated_module own_module base.now (interfaces_of idl.now) (bodies_of bodies.now) (option_copied main.entry)) result }
{
    let classes = build_faces(alloc, idl, base, own_module)?;
    let interfaces = all_interfaces(alloc, idl.as_slice())?;
    let texts = all_texts(alloc, bodies.as_slice())?;
    let drafts = drafts_of_classes(alloc, &interfaces, classes)?;
    let made = bodies_over(alloc, own_module, base, &interfaces, &drafts, &texts, main)?;
    let AllBodies { classes, main } = made;
    let classes = completed_classes(alloc, drafts, classes)?;
    Ok(ElaboratedModule { classes, main })
}

// Each interface with its declaration.
fn drafts_of_classes<'a>(
    alloc: Global,
    interfaces: &[&'a IdlInterface],
    classes: List<ClassDecl>,
) -> Result<Vec<Draft<'a>>, NoMemory>
    ensures { IfOk result (λ all. plain_drafts all.items ≡ spec.drafts_of_classes (lent interfaces.now) classes) }
{
    let mut all = Vec::new(alloc);
    for (text, decl) in interfaces.iter().zip(classes.into_vec()) {
        all.push(Draft { text: *text, decl })?;
    }
    Ok(all)
}

// The bodies of classes that break no rule on faces.
fn bodies_over(
    alloc: Global,
    own_module: Module,
    base: &Interface,
    interfaces: &[&IdlInterface],
    drafts: &[Draft],
    texts: &[&BodyText],
    main: Option<&BlockText>,
) -> Result<AllBodies, Refused>
    requires conforms { faces_breach (interface_classes base.now) ≡ None }
    requires few { FewParameters (interface_classes base.now) }
    requires faces { texts_breach own_module base.now (lent interfaces.now) ≡ None }
    requires drafted { plain_drafts drafts.now ≡ drafts_over own_module base.now (lent interfaces.now) }
    ensures { Answers (checked_steps (among_over own_module base.now (lent interfaces.now)) own_module (given texts.now) (plain_drafts drafts.now) (option_copied main.entry)) result }
{
    let texts = ModuleTexts::grouped(alloc, texts)?;
    grouped_over(alloc, own_module, base, interfaces, drafts, &texts, main)
}

// The bodies of classes that break no rule on faces, where their texts are put together by classes.
fn grouped_over(
    alloc: Global,
    own_module: Module,
    base: &Interface,
    interfaces: &[&IdlInterface],
    drafts: &[Draft],
    texts: &ModuleTexts,
    main: Option<&BlockText>,
) -> Result<AllBodies, Refused>
    requires conforms { faces_breach (interface_classes base.now) ≡ None }
    requires few { FewParameters (interface_classes base.now) }
    requires faces { texts_breach own_module base.now (lent interfaces.now) ≡ None }
    requires drafted { plain_drafts drafts.now ≡ drafts_over own_module base.now (lent interfaces.now) }
    ensures { Answers (checked_steps (among_over own_module base.now (lent interfaces.now)) own_module (given texts.now.all.now) (plain_drafts drafts.now) (option_copied main.entry)) result }
{
    let kernel = kernel_faces(alloc)?;
    let kernel = kernel.classes.as_slice();
    let known = base.classes.as_slice();
    let bares = bare_classes(alloc, known)?;
    let scope = scope_of(alloc, own_module, known, kernel, interfaces)?;
    bodies_after(alloc, &scope, bares.as_slice(), drafts, texts, main)
}

// The bodies of classes and of main, where the classes of the base are declared.
fn bodies_after(
    alloc: Global,
    scope: &Scope,
    base: &[ClassDecl],
    drafts: &[Draft],
    texts: &ModuleTexts,
    main: Option<&BlockText>,
) -> Result<AllBodies, Refused>
    requires rules { classes_breach (length base.now) (after_base scope.now.module (map (class_in modules.Library) base.now) (draft_classes (plain_drafts drafts.now))) ≡ None }
    requires few { FewParameters (map (class_in modules.Library) base.now) }
    requires parents { ParentsCounted (plain_drafts drafts.now) }
    ensures { Answers (checked_steps (record {
      classes = with_kernel (after_base scope.now.module (map (class_in modules.Library) base.now) (draft_classes (plain_drafts drafts.now)));
      module_of = module_in_scope scope.now;
    }) scope.now.module (given texts.now.all.now) (plain_drafts drafts.now) (option_copied main.entry)) result }
{
    let classes = known_classes(alloc, scope.module, base, drafts)?;
    bodies_among(alloc, scope, classes.as_slice(), drafts, texts, main)
}

fn bodies_among(
    alloc: Global,
    scope: &Scope,
    classes: &[Declared],
    drafts: &[Draft],
    texts: &ModuleTexts,
    main: Option<&BlockText>,
) -> Result<AllBodies, Refused>
    requires rules { (base : ℕ) × (classes_breach base (classes_of classes.now) ≡ None) }
    requires stand { StandAfterOthers scope.now.module (classes_of classes.now) (plain_drafts drafts.now) }
    ensures { Answers (checked_steps (record { classes = with_kernel (classes_of classes.now); module_of = module_in_scope scope.now }) scope.now.module
        (given texts.now.all.now) (plain_drafts drafts.now) (option_copied main.entry)) result }
{
    match parts_of(alloc, classes) {
        Ok(parts) => bodies_in_context(alloc, scope, &parts, classes, drafts, texts, main),
        Err(fault) => Err(refused(fault)),
    }
}

fn bodies_in_context(
    alloc: Global,
    scope: &Scope,
    parts: &Parts,
    classes: &[Declared],
    drafts: &[Draft],
    texts: &ModuleTexts,
    main: Option<&BlockText>,
) -> Result<AllBodies, Refused>
    requires parts { AreParts (classes_of classes.now) parts.now }
    requires rules { (base : ℕ) × (classes_breach base (classes_of classes.now) ≡ None) }
    requires stand { StandAfterOthers scope.now.module (classes_of classes.now) (plain_drafts drafts.now) }
    ensures { Answers (checked_steps (record { classes = with_kernel (classes_of classes.now); module_of = module_in_scope scope.now }) scope.now.module (given texts.now.all.now) (plain_drafts drafts.now) (option_copied main.entry)) result }
{
    let introducers = introducers_of(alloc, parts.kernel.classes.as_slice(), classes)?;
    bodies_by(
        alloc,
        scope,
        parts,
        classes,
        &introducers,
        drafts,
        texts,
        main,
    )
}

// The bodies of classes and of main, where it is known which classes introduce each name.
fn bodies_by(
    alloc: Global,
    scope: &Scope,
    parts: &Parts,
    classes: &[Declared],
    introducers: &Introducers,
    drafts: &[Draft],
    texts: &ModuleTexts,
    main: Option<&BlockText>,
) -> Result<AllBodies, Refused>
    requires parts { AreParts (classes_of classes.now) parts.now }
    requires introducers { AreIntroducers (with_kernel (classes_of classes.now)) introducers.now }
    requires rules { (base : ℕ) × (classes_breach base (classes_of classes.now) ≡ None) }
    requires stand { StandAfterOthers scope.now.module (classes_of classes.now) (plain_drafts drafts.now) }
    ensures { Answers (checked_steps (record { classes = with_kernel (classes_of classes.now); module_of = module_in_scope scope.now }) scope.now.module (given texts.now.all.now) (plain_drafts drafts.now) (option_copied main.entry)) result }
{
    let known = know(
        &parts.table,
        parts.kernel.classes.as_slice(),
        classes,
        parts.lists.as_slice(),
    );
    bodies_known(alloc, scope, &known, introducers, drafts, texts, main)
}

// The bodies of classes and of main, where the ancestors of each class are marked.
fn bodies_known(
    alloc: Global,
    scope: &Scope,
    known: &Knowledge,
    introducers: &Introducers,
    drafts: &[Draft],
    texts: &ModuleTexts,
    main: Option<&BlockText>,
) -> Result<AllBodies, Refused>
    requires known { IsKnowledge known.now }
    requires introducers { AreIntroducers (all_of known.now) introducers.now }
    requires rules { (base : ℕ) × (classes_breach base (classes_of known.now.classes.now) ≡ None) }
    requires stand { StandAfterOthers scope.now.module (classes_of known.now.classes.now) (plain_drafts drafts.now) }
    ensures { Answers (checked_steps (record { classes = all_of known.now; module_of = module_in_scope scope.now }) scope.now.module (given texts.now.all.now) (plain_drafts drafts.now) (option_copied main.entry)) result }
{
    let number = known.classes.len() + KERNEL_CLASSES;
    let rows = marked_rows(alloc, known.lists, number)?;
    let search = MethodSearch {
        introducers,
        rows: rows.as_slice(),
    };
    let context = ModuleContext {
        known: *known,
        search,
        scope,
    };
    checked_bodies(alloc, &context, drafts, texts, main)
}
