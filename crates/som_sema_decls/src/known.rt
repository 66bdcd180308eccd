//! The classes that a module knows.

ghost use Rattle.som_sema_decls.specs.Known.{after_base};
ghost use Rattle.som_sema_drafts.specs.Drafts.{draft_classes, plain_drafts};
ghost use Rattle.som_model.specs.Class.{class_in};
ghost use Rattle.som_model.specs.declared.key.Module.TheVariants as modules;
ghost use Rattle.som_verify_classes.specs.Modules.{classes_of};
ghost use Rattle.std.specs.Prelude.{◌≡◌, ◌++◌, map, IfOk, OnOk};

use som_model::{ClassDecl, Module, NoMemory};
use som_sema_drafts::Draft;
use som_verify_classes::Declared;
use som_verify_parents::declare;
use std::alloc::Global;

/// The classes of the base, and then those that were drafted.
pub fn known_classes<'a>(
    alloc: Global,
    own_module: Module,
    base: &'a [ClassDecl],
    drafts: &'a [Draft],
) -> Result<Vec<Declared<'a>>, NoMemory>
    ensures { IfOk result (λ all. classes_of all.items ≡ after_base own_module (map (class_in modules.Library) base.now) (draft_classes (plain_drafts drafts.now))) }
{
    let mut classes = declare(Vec::new(alloc), Module::Library, base)?;
    add_drafts(&mut classes, own_module, drafts)?;
    Ok(classes)
}

fn add_drafts<'a>(
    classes: &mut Vec<Declared<'a>>,
    own_module: Module,
    drafts: &'a [Draft],
) -> Result<(), NoMemory>
    ensures { OnOk result (classes_of classes.new.items ≡
        classes_of classes.old.items ++ map (class_in own_module) (draft_classes (plain_drafts drafts.now))) }
{
    for draft in drafts {
        let decl = &draft.decl;
        classes.push(Declared {
            module: own_module,
            decl,
        })?;
    }
    Ok(())
}
