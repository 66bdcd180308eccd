//! Drafts from interfaces: name, versions, parents, metaclass, entries and variables.

ghost use Rattle.som_model.specs.Lists.{first};
ghost use Rattle.som_order.specs.Names.{texts};
ghost use Rattle.som_sema_scope.specs.ClassNames as names_of_classes;
ghost use Rattle.som_sema_scope.specs.ClassNames.{module_in_scope};
ghost use Rattle.som_sema_scope.specs.Words.{lent};
ghost use Rattle.som_sema_drafts.specs.Drafts as drafting;
ghost use Rattle.som_sema_drafts.specs.Drafts.{draft_of, plain_draft, plain_drafts};
ghost use Rattle.som_sema_drafts.specs.Items as spec;
ghost use Rattle.std.specs.Prelude.{◌≡◌, map, option_map, IfOk};

use crate::exports::introduced;
use crate::lookup::by_name;
use crate::single::{major, metaclass_names, minor};
use crate::variables::variables;
use som_ast::{IdlInterface, Item, Word};
use som_model::{ClassDecl, ClassFace, ClassKey, Entry, List, NoMemory};
use som_sema_drafts::{Draft, marks, parent_names};
use som_sema_scope::{Scope, key_of, keys_of};
use std::alloc::Global;

/// The drafts of interfaces, one for each, in order.
pub fn drafts_of<'a>(
    alloc: Global,
    scope: &Scope,
    interfaces: &[&'a IdlInterface],
) -> Result<Vec<Draft<'a>>, NoMemory>
    ensures { IfOk result (λ all. plain_drafts all.items ≡ map (draft_of (module_in_scope scope.now)) (lent interfaces.now)) }
{
    let mut all = Vec::new(alloc);
    for interface in interfaces {
        all.push(draft_from_text(alloc, scope, *interface)?)?;
    }
    Ok(all)
}

fn draft_from_text<'a>(
    alloc: Global,
    scope: &Scope,
    text: &'a IdlInterface,
) -> Result<Draft<'a>, NoMemory>
    ensures { IfOk result (λ d. plain_draft d ≡ draft_of (module_in_scope scope.now) text.now) }
{
    let decl = draft_class(alloc, scope, text)?;
    Ok(Draft { text, decl })
}

fn draft_class(alloc: Global, scope: &Scope, text: &IdlInterface) -> Result<ClassDecl, NoMemory>
    ensures { IfOk result (λ d. d ≡ drafting.draft_class (module_in_scope scope.now) text.now) }
{
    let variables = variables(alloc, scope, text)?;
    let face = draft_face(alloc, scope, text)?;
    Ok(ClassDecl {
        face,
        variables,
        bodies: List::new(alloc),
        overrides: List::new(alloc),
        selects: List::new(alloc),
    })
}

// The metaclass is made last, so that no other step has to drop it.
fn draft_face(alloc: Global, scope: &Scope, text: &IdlInterface) -> Result<ClassFace, NoMemory>
    ensures { IfOk result (λ face. face ≡ (drafting.draft_class (module_in_scope scope.now) text.now).face) }
{
    let items = text.items.as_slice();
    let entries = entries(alloc, scope, text)?;
    let parents = parents(alloc, scope, text.parents.as_slice())?;
    let name = text.name.text.copy(alloc)?;
    let metaclass = metaclass(alloc, scope, items)?;
    Ok(ClassFace {
        name,
        major: major(items),
        minor: minor(items),
        parents,
        metaclass,
        entries,
    })
}

fn entries(alloc: Global, scope: &Scope, text: &IdlInterface) -> Result<List<Entry>, NoMemory>
    ensures { IfOk result (λ all. all ≡ drafting.introduces (module_in_scope scope.now) text.now) }
{
    let marks = marks(alloc, text.items.as_slice())?;
    let by_name = by_name(alloc, &marks)?;
    introduced(alloc, scope, &by_name, text)
}

fn parents(alloc: Global, scope: &Scope, parents: &[Word]) -> Result<List<ClassKey>, NoMemory>
    ensures { IfOk result (λ keys. keys ≡ map (names_of_classes.key_of (module_in_scope scope.now)) (spec.or_object parents.now)) }
{
    let names = parent_names(alloc, parents)?;
    keys_of(alloc, scope, &names)
}

// The class of the first metaclass item.
fn metaclass(alloc: Global, scope: &Scope, items: &[Item]) -> Result<Option<ClassKey>, NoMemory>
    ensures { IfOk result (λ key. key ≡ option_map (names_of_classes.key_of (module_in_scope scope.now)) (first (spec.metaclass_names items.now))) }
{
    let names = metaclass_names(alloc, items)?;
    first_key(alloc, scope, &names)
}

fn first_key(alloc: Global, scope: &Scope, names: &[&[u8]]) -> Result<Option<ClassKey>, NoMemory>
    ensures { IfOk result (λ key. key ≡ option_map (names_of_classes.key_of (module_in_scope scope.now)) (first (texts names.now))) }
{
    match names {
        [] => Ok(None),
        [name, ..] => Ok(Some(key_of(alloc, scope, *name)?)),
    }
}
