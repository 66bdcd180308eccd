//! The checker of interface files: S1 to S12 in order, and then the declarations.

ghost use Rattle.som_model.specs.Class.{class_in};
ghost use Rattle.som_model.specs.Classes.{interface_classes};
ghost use Rattle.som_model.specs.Kernel.{kernel_interface};
ghost use Rattle.som_model.specs.declared.key.Module.TheVariants as modules;
ghost use Rattle.som_verify_classes.specs.Faces.{faces_breach};
ghost use Rattle.som_verify_classes.specs.Modules.{classes_of};
ghost use Rattle.som_verify_classes.specs.Told.{Tells};
ghost use Rattle.som_sema_scope.specs.ClassNames.{module_in_scope};
ghost use Rattle.som_sema_scope.specs.Words.{interfaces_of, lent};
ghost use Rattle.som_sema.specs.Ancestry.{AreDrafts, IsAncestorTable};
ghost use Rattle.som_sema.specs.Building as spec;
ghost use Rattle.som_sema.specs.Building.{FacesTold, declared_all, draft_rules_breach, finished_breach, moved_breach, texts_breach};
ghost use Rattle.som_sema_decls.specs.Known.{after_base};
ghost use Rattle.som_sema_drafts.specs.Drafts.{draft_classes, draft_of, plain_drafts};
ghost use Rattle.std.specs.Prelude.{◌≡◌, ◌++◌, map, IfOk, OnOk, None};

use crate::ancestry::AncestorTable;
use crate::inherited::replaced_inherited;
use crate::rules::{drafts_hold, moves_hold};
use som_ast::{IdlFile, IdlInterface};
use som_builtins::kernel_faces;
use som_model::{
    ClassDecl, ClassFace, Interface, List, MAX_CLIENT_CLASSES, MAX_LIBRARY_CLASSES, Module,
    NoMemory, Text,
};
use som_sema_decls::{declarations, known_classes};
use som_sema_drafts::{Draft, Refused, refused};
use som_sema_local::{drafts_of, items_differ, modifiers_stand};
use som_sema_scope::{Scope, scope_of};
use som_verify_classes::{Declared, KERNEL_CLASSES, VerifyFault};
use som_verify_parents::{bare_classes, declare};
use std::alloc::Global;

/// The declarations that texts stand for, without bodies, or the first limit or rule that they break. They are compiled
/// against a base that conforms.
pub fn build_faces(
    alloc: Global,
    idl: &List<IdlFile>,
    base: &Interface,
    own_module: Module,
) -> Result<List<ClassDecl>, Refused>
    requires { faces_breach (interface_classes base.now) ≡ None }
    ensures { FacesTold own_module base.now (interfaces_of idl.now) result }
{
    let interfaces = all_interfaces(alloc, idl.as_slice())?;
    let all = interfaces.as_slice();
    let most = most_classes(own_module);
    if all.len() > most as usize {
        return Err(Refused::Limit {
            quantity: Text::from_slice(alloc, b"classes")?,
            number: most,
        });
    }
    match faces(alloc, all, base, own_module) {
        Ok(classes) => Ok(classes),
        Err(fault) => Err(refused(fault)),
    }
}

fn most_classes(own_module: Module) -> u32
    ensures { result ≡ spec.most_classes own_module }
{
    match own_module {
        Module::Client => MAX_CLIENT_CLASSES,
        Module::Kernel => MAX_LIBRARY_CLASSES,
        Module::Library => MAX_LIBRARY_CLASSES,
        Module::Upper(_) => MAX_CLIENT_CLASSES,
    }
}

/// The interfaces of all files, in order.
pub fn all_interfaces(alloc: Global, files: &[IdlFile]) -> Result<Vec<&IdlInterface>, NoMemory>
    ensures { IfOk result (λ all. lent all.items ≡ interfaces_of files.now) }
{
    let mut all = Vec::new(alloc);
    for file in files {
        add_interfaces(&mut all, file.interfaces.as_slice())?;
    }
    Ok(all)
}

fn add_interfaces<'a>(
    all: &mut Vec<&'a IdlInterface>,
    interfaces: &'a [IdlInterface],
) -> Result<(), NoMemory>
    ensures { OnOk result (lent all.new.items ≡ lent all.old.items ++ interfaces.now) }
{
    for interface in interfaces {
        all.push(interface)?;
    }
    Ok(())
}

// The declarations, or the first rule that is broken.
fn faces(
    alloc: Global,
    interfaces: &[&IdlInterface],
    base: &Interface,
    own_module: Module,
) -> Result<List<ClassDecl>, VerifyFault>
    requires { faces_breach (interface_classes base.now) ≡ None }
    ensures tells { Tells (texts_breach own_module base.now (lent interfaces.now)) result }
    ensures ok { IfOk result (λ ds. ds ≡ spec.declarations own_module base.now (lent interfaces.now)) }
{
    let kernel = kernel_faces(alloc)?;
    let kernel = kernel.classes.as_slice();
    let known = base.classes.as_slice();
    let scope = scope_of(alloc, own_module, known, kernel, interfaces)?;
    faces_in_scope(alloc, &scope, kernel, base, interfaces)
}

// The declarations, or the first rule that is broken, where it is known what names stand for.
fn faces_in_scope(
    alloc: Global,
    scope: &Scope,
    kernel: &[ClassFace],
    base: &Interface,
    interfaces: &[&IdlInterface],
) -> Result<List<ClassDecl>, VerifyFault>
    requires kernel { kernel.now ≡ kernel_interface.classes }
    requires conforms { faces_breach (interface_classes base.now) ≡ None }
    ensures tells { Tells (draft_rules_breach (module_in_scope scope.now) scope.now.module (interface_classes base.now)
        (map (draft_of (module_in_scope scope.now)) (lent interfaces.now))) result }
    ensures ok { IfOk result (λ ds. ds ≡ declared_all scope.now.module (interface_classes base.now)
        (map (draft_of (module_in_scope scope.now)) (lent interfaces.now))) }
{
    let drafts = drafts_of(alloc, scope, interfaces)?;
    let bares = bare_classes(alloc, base.classes.as_slice())?;
    built(alloc, scope, kernel, bares.as_slice(), drafts.as_slice())
}

// The declarations of drafts, or the first rule that they break.
fn built(
    alloc: Global,
    scope: &Scope,
    kernel: &[ClassFace],
    base: &[ClassDecl],
    drafts: &[Draft],
) -> Result<List<ClassDecl>, VerifyFault>
    requires kernel { kernel.now ≡ kernel_interface.classes }
    requires conforms { faces_breach (map (class_in modules.Library) base.now) ≡ None }
    requires drafted { AreDrafts (module_in_scope scope.now) (plain_drafts drafts.now) }
    ensures tells { Tells (draft_rules_breach (module_in_scope scope.now) scope.now.module (map (class_in modules.Library) base.now) (plain_drafts drafts.now)) result }
    ensures ok { IfOk result (λ ds. ds ≡ declared_all scope.now.module (map (class_in modules.Library) base.now) (plain_drafts drafts.now)) }
{
    let classes = known_classes(alloc, scope.module, base, drafts)?;
    built_among(alloc, scope, kernel, base, classes.as_slice(), drafts)
}

// The declarations of drafts, or the first rule that they break, where all classes stand in one list.
fn built_among(
    alloc: Global,
    scope: &Scope,
    kernel: &[ClassFace],
    base: &[ClassDecl],
    known: &[Declared],
    drafts: &[Draft],
) -> Result<List<ClassDecl>, VerifyFault>
    requires kernel { kernel.now ≡ kernel_interface.classes }
    requires conforms { faces_breach (map (class_in modules.Library) base.now) ≡ None }
    requires drafted { AreDrafts (module_in_scope scope.now) (plain_drafts drafts.now) }
    requires known { classes_of known.now ≡ after_base scope.now.module (map (class_in modules.Library) base.now) (draft_classes (plain_drafts drafts.now)) }
    ensures tells { Tells (draft_rules_breach (module_in_scope scope.now) scope.now.module (map (class_in modules.Library) base.now) (plain_drafts drafts.now)) result }
    ensures ok { IfOk result (λ ds. ds ≡ declared_all scope.now.module (map (class_in modules.Library) base.now) (plain_drafts drafts.now)) }
{
    let ancestors = drafts_hold(alloc, scope, known, base.len(), drafts)?;
    finished(alloc, scope, kernel, base, known, &ancestors, drafts)
}

// The declarations of drafts that break none of the rules S1 to S7.
fn finished(
    alloc: Global,
    scope: &Scope,
    kernel: &[ClassFace],
    base: &[ClassDecl],
    known: &[Declared],
    ancestors: &AncestorTable,
    drafts: &[Draft],
) -> Result<List<ClassDecl>, VerifyFault>
    requires kernel { kernel.now ≡ kernel_interface.classes }
    requires conforms { faces_breach (map (class_in modules.Library) base.now) ≡ None }
    requires known { classes_of known.now ≡ after_base scope.now.module (map (class_in modules.Library) base.now) (draft_classes (plain_drafts drafts.now)) }
    requires ancestors { IsAncestorTable (classes_of known.now) ancestors.now }
    ensures tells { Tells (finished_breach (module_in_scope scope.now) scope.now.module (map (class_in modules.Library) base.now) (plain_drafts drafts.now)
        (declared_all scope.now.module (map (class_in modules.Library) base.now) (plain_drafts drafts.now))) result }
    ensures ok { IfOk result (λ ds. ds ≡ declared_all scope.now.module (map (class_in modules.Library) base.now) (plain_drafts drafts.now)) }
{
    let lists = ancestors.lists.as_slice();
    let from = base.len() + KERNEL_CLASSES;
    let all = declarations(alloc, kernel, known, lists, drafts, from)?;
    let own = all.as_slice();
    finished_hold(alloc, scope, kernel, base, known, ancestors, drafts, own)?;
    Ok(all)
}

// The rules S8 to S12, where the declarations of the drafts are known.
fn finished_hold(
    alloc: Global,
    scope: &Scope,
    kernel: &[ClassFace],
    base: &[ClassDecl],
    known: &[Declared],
    ancestors: &AncestorTable,
    drafts: &[Draft],
    own: &[ClassDecl],
) -> Result<(), VerifyFault>
    requires kernel { kernel.now ≡ kernel_interface.classes }
    requires conforms { faces_breach (map (class_in modules.Library) base.now) ≡ None }
    requires known { classes_of known.now ≡ after_base scope.now.module (map (class_in modules.Library) base.now) (draft_classes (plain_drafts drafts.now)) }
    requires ancestors { IsAncestorTable (classes_of known.now) ancestors.now }
    requires finished { IsAncestorTable (after_base scope.now.module (map (class_in modules.Library) base.now) own.now) ancestors.now }
    ensures { Tells (finished_breach (module_in_scope scope.now) scope.now.module (map (class_in modules.Library) base.now) (plain_drafts drafts.now) own.now) result }
{
    entries_hold(alloc, scope.module, kernel, ancestors, base, own)?;
    let from = base.len() + KERNEL_CLASSES;
    replaced_inherited(alloc, scope, kernel, known, ancestors, drafts, from)?;
    modifiers_stand(alloc, drafts)?;
    items_differ(alloc, drafts)
}

// The rules S8 and S9 of the declarations.
fn entries_hold(
    alloc: Global,
    own_module: Module,
    kernel: &[ClassFace],
    ancestors: &AncestorTable,
    base: &[ClassDecl],
    own: &[ClassDecl],
) -> Result<(), VerifyFault>
    requires kernel { kernel.now ≡ kernel_interface.classes }
    requires ancestors { IsAncestorTable (after_base own_module (map (class_in modules.Library) base.now) own.now) ancestors.now }
    requires conforms { faces_breach (map (class_in modules.Library) base.now) ≡ None }
    ensures { Tells (moved_breach (after_base own_module (map (class_in modules.Library) base.now) own.now) (map (class_in own_module) own.now)) result }
{
    let classes = both_classes(alloc, own_module, base, own)?;
    let known = classes.as_slice();
    moves_hold(alloc, kernel, ancestors, known, base.len())
}

// The classes of the base, and then the own ones.
fn both_classes<'a>(
    alloc: Global,
    own_module: Module,
    base: &'a [ClassDecl],
    own: &'a [ClassDecl],
) -> Result<Vec<Declared<'a>>, NoMemory>
    ensures { IfOk result (λ all. classes_of all.items ≡ after_base own_module (map (class_in modules.Library) base.now) own.now) }
{
    let known = declare(Vec::new(alloc), Module::Library, base)?;
    declare(known, own_module, own)
}
