//! Class declarations from drafts, where each moved or overridden method gets the class that introduces it.

ghost use Rattle.som_model.specs.Class.{Class, introduced};
ghost use Rattle.som_model.specs.EffectiveOrder as orders;
ghost use Rattle.som_model.specs.Kernel.{kernel_interface};
ghost use Rattle.som_order.specs.Names.{texts};
ghost use Rattle.som_verify_classes.specs.Modules.{classes_of};
ghost use Rattle.som_verify_classes.specs.Places.{key_at as key_at_place, with_kernel};
ghost use Rattle.som_verify_classes.specs.Walk.{AreLists};
ghost use Rattle.som_sema_drafts.specs.Drafts.{plain_draft, plain_drafts};
ghost use Rattle.som_sema_decls.specs.Finished as spec;
ghost use Rattle.som_sema_decls.specs.Finished.{declare_at, entry_for, entry_or_moved, override_of};
ghost use Rattle.som_sema_drafts.specs.Items as spec_items;
ghost use Rattle.som_sema_drafts.specs.Items.{listed as listed_names};
ghost use Rattle.som_sema_names.specs.Introducers as names_first;
ghost use Rattle.som_sema_names.specs.Introducers.{AreIntroducers};
ghost use Rattle.som_sema_names.specs.Ranking.{IsRanking};
ghost use Rattle.som_sema_names.specs.Noted.{IsKnown, counted};
ghost use Rattle.std.specs.Prelude.{◌≡◌, ◌<◌, ◌+◌, ℕ, [], List as Seq, length, map, slice_index_or, option_copied, unwrap_or, IfOk};

use crate::faces::{key_at, ranking_above};
use som_ast::Item;
use som_model::{
    Block, ClassDecl, ClassFace, ClassKey, Entry, List, MethodRef, NoMemory, Override, Text,
    Variable,
};
use som_order::effective_order;
use som_sema_drafts::{Draft, listed, marks, overridden};
use som_sema_names::{
    Introducers, Places, Ranking, entry_named, entry_places, first_introducer, introducers_of,
};
use som_verify_classes::Declared;
use std::alloc::Global;

/// The declarations of a module's classes, the first of which stands at a place.
pub fn declarations(
    alloc: Global,
    kernel: &[ClassFace],
    classes: &[Declared],
    lists: &[List<usize>],
    drafts: &[Draft],
    from: usize,
) -> Result<List<ClassDecl>, NoMemory>
    requires kernel { kernel.now ≡ kernel_interface.classes }
    requires lists { AreLists (with_kernel (classes_of classes.now)) lists.now }
    requires from { from + length drafts.now ≡ length (with_kernel (classes_of classes.now)) }
    ensures { IfOk result (λ ds. ds ≡ spec.declared_from (with_kernel (classes_of classes.now)) from (plain_drafts drafts.now)) }
{
    let introducers = introducers_of(alloc, kernel, classes)?;
    declarations_by(alloc, kernel, classes, lists, &introducers, drafts, from)
}

// The declarations of a module's classes, where it is known which classes introduce each name.
fn declarations_by(
    alloc: Global,
    kernel: &[ClassFace],
    classes: &[Declared],
    lists: &[List<usize>],
    introducers: &Introducers,
    drafts: &[Draft],
    from: usize,
) -> Result<List<ClassDecl>, NoMemory>
    requires kernel { kernel.now ≡ kernel_interface.classes }
    requires lists { AreLists (with_kernel (classes_of classes.now)) lists.now }
    requires introducers { AreIntroducers (with_kernel (classes_of classes.now)) introducers.now }
    requires from { from + length drafts.now ≡ length (with_kernel (classes_of classes.now)) }
    ensures { IfOk result (λ ds. ds ≡ spec.declared_from (with_kernel (classes_of classes.now)) from (plain_drafts drafts.now)) }
{
    let mut all = List::new(alloc);
    let mut place = from;
    for draft in drafts {
        let decl = declaration(alloc, kernel, classes, lists, introducers, draft, place)?;
        all.push(decl)?;
        place += 1;
    }
    Ok(all)
}

fn declaration(
    alloc: Global,
    kernel: &[ClassFace],
    classes: &[Declared],
    lists: &[List<usize>],
    introducers: &Introducers,
    draft: &Draft,
    place: usize,
) -> Result<ClassDecl, NoMemory>
    requires kernel { kernel.now ≡ kernel_interface.classes }
    requires lists { AreLists (with_kernel (classes_of classes.now)) lists.now }
    requires introducers { AreIntroducers (with_kernel (classes_of classes.now)) introducers.now }
    requires place { place < length (with_kernel (classes_of classes.now)) }
    ensures { IfOk result (λ d. d ≡ declare_at (with_kernel (classes_of classes.now))
        (key_at_place (with_kernel (classes_of classes.now)) place) (plain_draft draft.now)) }
{
    let above = ranking_above(alloc, introducers, classes, lists, place)?;
    declaration_below(alloc, kernel, classes, lists, &above, draft, place)
}

// The declaration of the class at a place, where its ancestors have ranks.
fn declaration_below(
    alloc: Global,
    kernel: &[ClassFace],
    classes: &[Declared],
    lists: &[List<usize>],
    above: &Ranking,
    draft: &Draft,
    place: usize,
) -> Result<ClassDecl, NoMemory>
    requires kernel { kernel.now ≡ kernel_interface.classes }
    requires lists { AreLists (with_kernel (classes_of classes.now)) lists.now }
    requires place { place < length (with_kernel (classes_of classes.now)) }
    requires above { IsRanking (with_kernel (classes_of classes.now)) (slice_index_or lists.now place []) above.now }
    ensures { IfOk result (λ d. d ≡ declare_at (with_kernel (classes_of classes.now))
        (key_at_place (with_kernel (classes_of classes.now)) place) (plain_draft draft.now)) }
{
    let variables = variables(alloc, draft.decl.variables.as_slice())?;
    let overrides = overrides(alloc, kernel, classes, lists, above, draft, place)?;
    let face = finished_face(alloc, kernel, classes, lists, above, draft, place)?;
    Ok(ClassDecl {
        face,
        variables,
        bodies: List::new(alloc),
        overrides,
        selects: List::new(alloc),
    })
}

// The metaclass is made last, so that no other step has to drop it.
fn finished_face(
    alloc: Global,
    kernel: &[ClassFace],
    classes: &[Declared],
    lists: &[List<usize>],
    above: &Ranking,
    draft: &Draft,
    place: usize,
) -> Result<ClassFace, NoMemory>
    requires kernel { kernel.now ≡ kernel_interface.classes }
    requires lists { AreLists (with_kernel (classes_of classes.now)) lists.now }
    requires place { place < length (with_kernel (classes_of classes.now)) }
    requires above { IsRanking (with_kernel (classes_of classes.now)) (slice_index_or lists.now place []) above.now }
    ensures { IfOk result (λ face. face ≡ (declare_at (with_kernel (classes_of classes.now))
        (key_at_place (with_kernel (classes_of classes.now)) place) (plain_draft draft.now)).face) }
{
    let entries = entries(alloc, kernel, classes, lists, above, draft, place)?;
    let face = &draft.decl.face;
    let parents = keys(alloc, face.parents.as_slice())?;
    let name = face.name.copy(alloc)?;
    let metaclass = optional_key(alloc, &face.metaclass)?;
    Ok(ClassFace {
        name,
        major: face.major,
        minor: face.minor,
        parents,
        metaclass,
        entries,
    })
}

fn keys(alloc: Global, keys: &[ClassKey]) -> Result<List<ClassKey>, NoMemory>
    ensures { IfOk result (λ copies. copies ≡ keys.now) }
{
    let mut copies = List::new(alloc);
    for key in keys {
        copies.push(key.copy(alloc)?)?;
    }
    Ok(copies)
}

fn optional_key(alloc: Global, key: &Option<ClassKey>) -> Result<Option<ClassKey>, NoMemory>
    ensures { IfOk result (λ copy. copy ≡ key.now) }
{
    match key {
        None => Ok(None),
        Some(key) => Ok(Some(key.copy(alloc)?)),
    }
}

fn variables(alloc: Global, variables: &[Variable]) -> Result<List<Variable>, NoMemory>
    ensures { IfOk result (λ copies. copies ≡ variables.now) }
{
    let mut copies = List::new(alloc);
    for variable in variables {
        copies.push(variable.copy(alloc)?)?;
    }
    Ok(copies)
}

// The entries of a class in the effective order.
fn entries(
    alloc: Global,
    kernel: &[ClassFace],
    classes: &[Declared],
    lists: &[List<usize>],
    above: &Ranking,
    draft: &Draft,
    place: usize,
) -> Result<List<Entry>, NoMemory>
    requires kernel { kernel.now ≡ kernel_interface.classes }
    requires lists { AreLists (with_kernel (classes_of classes.now)) lists.now }
    requires place { place < length (with_kernel (classes_of classes.now)) }
    requires above { IsRanking (with_kernel (classes_of classes.now)) (slice_index_or lists.now place []) above.now }
    ensures { IfOk result (λ es. es ≡ map (entry_for (with_kernel (classes_of classes.now))
        (key_at_place (with_kernel (classes_of classes.now)) place) draft.now.decl.face.entries)
        (orders.effective_order (listed_names draft.now.text.now.items) (introduced draft.now.decl.face.entries))) }
{
    let own = draft.decl.face.entries.as_slice();
    let order = order_of(alloc, draft.text.items.as_slice(), own)?;
    let own_places = entry_places(alloc, own)?;
    entries_in_order(
        alloc,
        kernel,
        classes,
        lists,
        above,
        own,
        &own_places,
        order.as_slice(),
        place,
    )
}

// The entries of names, of which the class introduces some itself.
fn entries_in_order(
    alloc: Global,
    kernel: &[ClassFace],
    classes: &[Declared],
    lists: &[List<usize>],
    above: &Ranking,
    own: &[Entry],
    own_places: &Places,
    order: &[Text],
    place: usize,
) -> Result<List<Entry>, NoMemory>
    requires kernel { kernel.now ≡ kernel_interface.classes }
    requires lists { AreLists (with_kernel (classes_of classes.now)) lists.now }
    requires place { place < length (with_kernel (classes_of classes.now)) }
    requires above { IsRanking (with_kernel (classes_of classes.now)) (slice_index_or lists.now place []) above.now }
    requires own { IsKnown (counted 0 own.now) own_places.now }
    ensures { IfOk result (λ es. es ≡ map (entry_for (with_kernel (classes_of classes.now))
        (key_at_place (with_kernel (classes_of classes.now)) place) own.now) order.now) }
{
    let mut all = List::new(alloc);
    for name in order {
        let found = entry_named(own, own_places, name.as_slice());
        all.push(found_entry(alloc, kernel, classes, lists, above, found, name, place)?)?;
    }
    Ok(all)
}

// A copy of the entry that was found, and else the name, moved to the class that introduces it.
fn found_entry(
    alloc: Global,
    kernel: &[ClassFace],
    classes: &[Declared],
    lists: &[List<usize>],
    above: &Ranking,
    found: Option<&Entry>,
    name: &Text,
    place: usize,
) -> Result<Entry, NoMemory>
    requires kernel { kernel.now ≡ kernel_interface.classes }
    requires lists { AreLists (with_kernel (classes_of classes.now)) lists.now }
    requires place { place < length (with_kernel (classes_of classes.now)) }
    requires above { IsRanking (with_kernel (classes_of classes.now)) (slice_index_or lists.now place []) above.now }
    ensures { IfOk result (λ e. e ≡ entry_or_moved (spec.introducer (with_kernel (classes_of classes.now))
        (key_at_place (with_kernel (classes_of classes.now)) place) name.now) name.now (option_copied found.entry)) }
{
    match found {
        Some(entry) => entry.copy(alloc),
        None => {
            let moved = name.copy(alloc)?;
            let to = introducer(alloc, kernel, classes, lists, above, place, name.as_slice())?;
            Ok(Entry::Moved { name: moved, to })
        }
    }
}

// The effective order of the names that are listed and of those that are introduced.
fn order_of(alloc: Global, items: &[Item], own: &[Entry]) -> Result<List<Text>, NoMemory>
    ensures { IfOk result (λ names. names ≡ orders.effective_order (listed_names items.now) (introduced own.now)) }
{
    let names = listed(alloc, items)?;
    let listed = copies(alloc, &names)?;
    let introduced = introduced_names(alloc, own)?;
    effective_order(alloc, &listed, &introduced)
}

fn copies(alloc: Global, names: &[&[u8]]) -> Result<List<Text>, NoMemory>
    ensures { IfOk result (λ copies. copies ≡ texts names.now) }
{
    let mut copies = List::new(alloc);
    for name in names {
        copies.push(Text::from_slice(alloc, *name)?)?;
    }
    Ok(copies)
}

fn introduced_names(alloc: Global, entries: &[Entry]) -> Result<List<Text>, NoMemory>
    ensures { IfOk result (λ names. names ≡ introduced entries.now) }
{
    let mut names = List::new(alloc);
    for entry in entries {
        if let Entry::Introduced { name, .. } = entry {
            names.push(name.copy(alloc)?)?;
        }
    }
    Ok(names)
}

/// The class of the first ancestor that introduces a name, and the class itself where none does.
pub fn introducer(
    alloc: Global,
    kernel: &[ClassFace],
    classes: &[Declared],
    lists: &[List<usize>],
    above: &Ranking,
    place: usize,
    name: &[u8],
) -> Result<ClassKey, NoMemory>
    requires kernel { kernel.now ≡ kernel_interface.classes }
    requires lists { AreLists (with_kernel (classes_of classes.now)) lists.now }
    requires place { place < length (with_kernel (classes_of classes.now)) }
    requires above { IsRanking (with_kernel (classes_of classes.now)) (slice_index_or lists.now place []) above.now }
    ensures { IfOk result (λ key. key ≡ spec.introducer (with_kernel (classes_of classes.now))
        (key_at_place (with_kernel (classes_of classes.now)) place) name.now) }
{
    let at = introducer_place(above, place, name);
    let key = key_at(alloc, kernel, classes, at)?;
    Ok(key)
}

/// The place of the first ancestor that introduces a name, and the place of the class itself where none does.
pub fn introducer_place(above: &Ranking, place: usize, name: &[u8]) -> usize
    requires { (cs : Seq Class) × ((list : Seq ℕ) × IsRanking cs list above.now) }
    ensures { (cs : Seq Class) (list : Seq ℕ) → IsRanking cs list above.now → result ≡ unwrap_or (names_first.first_introducer cs list name.now) place }
{
    match first_introducer(above, name) {
        Some(found) => found,
        None => place,
    }
}

// An override with an empty block for each method that is overridden.
fn overrides(
    alloc: Global,
    kernel: &[ClassFace],
    classes: &[Declared],
    lists: &[List<usize>],
    above: &Ranking,
    draft: &Draft,
    place: usize,
) -> Result<List<Override>, NoMemory>
    requires kernel { kernel.now ≡ kernel_interface.classes }
    requires lists { AreLists (with_kernel (classes_of classes.now)) lists.now }
    requires place { place < length (with_kernel (classes_of classes.now)) }
    requires above { IsRanking (with_kernel (classes_of classes.now)) (slice_index_or lists.now place []) above.now }
    ensures { IfOk result (λ os. os ≡ map (override_of (with_kernel (classes_of classes.now))
        (key_at_place (with_kernel (classes_of classes.now)) place)) (spec_items.overridden draft.now.text.now.items)) }
{
    let names = overridden_names(alloc, draft.text.items.as_slice())?;
    each_override(alloc, kernel, classes, lists, above, &names, place)
}

fn overridden_names(alloc: Global, items: &[Item]) -> Result<Vec<&[u8]>, NoMemory>
    ensures { IfOk result (λ names. texts names.items ≡ spec_items.overridden items.now) }
{
    let marks = marks(alloc, items)?;
    overridden(alloc, &marks)
}

// An override with an empty block for each of these names.
fn each_override(
    alloc: Global,
    kernel: &[ClassFace],
    classes: &[Declared],
    lists: &[List<usize>],
    above: &Ranking,
    names: &[&[u8]],
    place: usize,
) -> Result<List<Override>, NoMemory>
    requires kernel { kernel.now ≡ kernel_interface.classes }
    requires lists { AreLists (with_kernel (classes_of classes.now)) lists.now }
    requires place { place < length (with_kernel (classes_of classes.now)) }
    requires above { IsRanking (with_kernel (classes_of classes.now)) (slice_index_or lists.now place []) above.now }
    ensures { IfOk result (λ os. os ≡ map (override_of (with_kernel (classes_of classes.now))
        (key_at_place (with_kernel (classes_of classes.now)) place)) (texts names.now)) }
{
    let mut all = List::new(alloc);
    for name in names {
        all.push(empty_override(alloc, kernel, classes, lists, above, *name, place)?)?;
    }
    Ok(all)
}

// The class is found last, so that no other step has to drop it.
fn empty_override(
    alloc: Global,
    kernel: &[ClassFace],
    classes: &[Declared],
    lists: &[List<usize>],
    above: &Ranking,
    name: &[u8],
    place: usize,
) -> Result<Override, NoMemory>
    requires kernel { kernel.now ≡ kernel_interface.classes }
    requires lists { AreLists (with_kernel (classes_of classes.now)) lists.now }
    requires place { place < length (with_kernel (classes_of classes.now)) }
    requires above { IsRanking (with_kernel (classes_of classes.now)) (slice_index_or lists.now place []) above.now }
    ensures { IfOk result (λ o. o ≡ override_of (with_kernel (classes_of classes.now))
        (key_at_place (with_kernel (classes_of classes.now)) place) name.now) }
{
    let text = Text::from_slice(alloc, name)?;
    let class = introducer(alloc, kernel, classes, lists, above, place, name)?;
    Ok(Override {
        method: MethodRef { class, name: text },
        block: Block {
            statements: List::new(alloc),
        },
    })
}
