//! What the texts of classes select.

ghost use Rattle.som_sema_names.specs.Introducers.{AreIntroducers};
ghost use Rattle.som_sema_names.specs.Ranking.{IsRanking};
ghost use Rattle.som_model.specs.Kernel.{kernel_interface};
ghost use Rattle.som_order.specs.Names.{texts};
ghost use Rattle.som_verify_classes.specs.Modules.{classes_of};
ghost use Rattle.som_verify_classes.specs.Places.{key_at as key_at_place, with_kernel};
ghost use Rattle.som_verify_classes.specs.Walk.{AreLists};
ghost use Rattle.som_sema_drafts.specs.Drafts.{plain_draft};
ghost use Rattle.som_sema_decls.specs.Finished.{place_of, select_of, selects_at};
ghost use Rattle.som_sema_drafts.specs.Items.{chosen, chosen_by, given_by, or_object};
ghost use Rattle.som_sema_decls.specs.Selecting.{choice_of};
ghost use Rattle.std.specs.Prelude.{◌≡◌, ◌<◌, ◌≤◌, [], length, map, flat_map, slice_index_or, IfOk};

use crate::declared::introducer;
use crate::faces::ranking_above;
use som_ast::{Item, Modifier};
use som_model::{ClassFace, List, MethodRef, NoMemory, Select, Text};
use som_sema_drafts::{Draft, Mark, marks, parent_names};
use som_sema_names::{Introducers, Ranking};
use som_verify_classes::Declared;
use std::alloc::Global;

/// A method, and the parent of which its class takes the implementation.
#[derive(Clone, Copy)]
pub struct Choice<'a> {
    pub method: &'a [u8],
    pub parent: &'a [u8],
}

/// What the text of the class at a place selects, in the order of the text.
pub fn selects(
    alloc: Global,
    kernel: &[ClassFace],
    classes: &[Declared],
    lists: &[List<usize>],
    introducers: &Introducers,
    draft: &Draft,
    place: usize,
) -> Result<List<Select>, NoMemory>
    requires kernel { kernel.now ≡ kernel_interface.classes }
    requires lists { AreLists (with_kernel (classes_of classes.now)) lists.now }
    requires introducers { AreIntroducers (with_kernel (classes_of classes.now)) introducers.now }
    requires place { place < length (with_kernel (classes_of classes.now)) }
    requires parents { length (or_object draft.now.text.now.parents) ≤ 255 }
    ensures { IfOk result (λ ss. ss ≡ selects_at (with_kernel (classes_of classes.now))
        (key_at_place (with_kernel (classes_of classes.now)) place) (plain_draft draft.now)) }
{
    let choices = choices_of(alloc, draft.text.items.as_slice())?;
    if choices.is_empty() {
        return Ok(List::new(alloc));
    }
    chosen_selects(
        alloc,
        kernel,
        classes,
        lists,
        introducers,
        draft,
        &choices,
        place,
    )
}

// The selects of these choices, which the text of the class at a place makes.
fn chosen_selects(
    alloc: Global,
    kernel: &[ClassFace],
    classes: &[Declared],
    lists: &[List<usize>],
    introducers: &Introducers,
    draft: &Draft,
    choices: &[Choice],
    place: usize,
) -> Result<List<Select>, NoMemory>
    requires kernel { kernel.now ≡ kernel_interface.classes }
    requires lists { AreLists (with_kernel (classes_of classes.now)) lists.now }
    requires introducers { AreIntroducers (with_kernel (classes_of classes.now)) introducers.now }
    requires place { place < length (with_kernel (classes_of classes.now)) }
    requires parents { length (or_object draft.now.text.now.parents) ≤ 255 }
    ensures { IfOk result (λ ss. ss ≡ map (select_of (with_kernel (classes_of classes.now))
        (key_at_place (with_kernel (classes_of classes.now)) place) (or_object draft.now.text.now.parents)) (map choice_of choices.now)) }
{
    let parents = parent_names(alloc, draft.text.parents.as_slice())?;
    ranked_selects(
        alloc,
        kernel,
        classes,
        lists,
        introducers,
        &parents,
        choices,
        place,
    )
}

// The selects of these choices among these parents, in their order.
fn ranked_selects(
    alloc: Global,
    kernel: &[ClassFace],
    classes: &[Declared],
    lists: &[List<usize>],
    introducers: &Introducers,
    parents: &[&[u8]],
    choices: &[Choice],
    place: usize,
) -> Result<List<Select>, NoMemory>
    requires kernel { kernel.now ≡ kernel_interface.classes }
    requires lists { AreLists (with_kernel (classes_of classes.now)) lists.now }
    requires introducers { AreIntroducers (with_kernel (classes_of classes.now)) introducers.now }
    requires place { place < length (with_kernel (classes_of classes.now)) }
    requires parents { length parents.now ≤ 255 }
    ensures { IfOk result (λ ss. ss ≡ map (select_of (with_kernel (classes_of classes.now))
        (key_at_place (with_kernel (classes_of classes.now)) place) (texts parents.now)) (map choice_of choices.now)) }
{
    let above = ranking_above(alloc, introducers, classes, lists, place)?;
    each_select(
        alloc, kernel, classes, lists, &above, parents, choices, place,
    )
}

// What items select, in the order of the text.
fn choices_of(alloc: Global, items: &[Item]) -> Result<Vec<Choice<'_>>, NoMemory>
    ensures { IfOk result (λ all. map choice_of all.items ≡ chosen items.now) }
{
    let marks = marks(alloc, items)?;
    choices(alloc, &marks)
}

fn choices<'a>(alloc: Global, marks: &[Mark<'a>]) -> Result<Vec<Choice<'a>>, NoMemory>
    ensures { IfOk result (λ all. map choice_of all.items ≡ flat_map chosen_by (map given_by marks.now)) }
{
    let mut all = Vec::new(alloc);
    for mark in marks {
        if let Modifier::Select { parent } = mark.modifier {
            all.push(Choice {
                method: mark.method,
                parent: parent.text.as_slice(),
            })?;
        }
    }
    Ok(all)
}

fn each_select(
    alloc: Global,
    kernel: &[ClassFace],
    classes: &[Declared],
    lists: &[List<usize>],
    above: &Ranking,
    parents: &[&[u8]],
    choices: &[Choice],
    place: usize,
) -> Result<List<Select>, NoMemory>
    requires kernel { kernel.now ≡ kernel_interface.classes }
    requires lists { AreLists (with_kernel (classes_of classes.now)) lists.now }
    requires place { place < length (with_kernel (classes_of classes.now)) }
    requires above { IsRanking (with_kernel (classes_of classes.now)) (slice_index_or lists.now place []) above.now }
    requires parents { length parents.now ≤ 255 }
    ensures { IfOk result (λ ss. ss ≡ map (select_of (with_kernel (classes_of classes.now))
        (key_at_place (with_kernel (classes_of classes.now)) place) (texts parents.now)) (map choice_of choices.now)) }
{
    let mut all = List::new(alloc);
    for choice in choices {
        all.push(one_select(alloc, kernel, classes, lists, above, parents, choice, place)?)?;
    }
    Ok(all)
}

// The class is found last, so that no other step has to drop it.
fn one_select(
    alloc: Global,
    kernel: &[ClassFace],
    classes: &[Declared],
    lists: &[List<usize>],
    above: &Ranking,
    parents: &[&[u8]],
    choice: &Choice,
    place: usize,
) -> Result<Select, NoMemory>
    requires kernel { kernel.now ≡ kernel_interface.classes }
    requires lists { AreLists (with_kernel (classes_of classes.now)) lists.now }
    requires place { place < length (with_kernel (classes_of classes.now)) }
    requires above { IsRanking (with_kernel (classes_of classes.now)) (slice_index_or lists.now place []) above.now }
    requires parents { length parents.now ≤ 255 }
    ensures { IfOk result (λ s. s ≡ select_of (with_kernel (classes_of classes.now))
        (key_at_place (with_kernel (classes_of classes.now)) place) (texts parents.now) (choice_of choice.now)) }
{
    let parent = parent_place(parents, choice.parent);
    let name = Text::from_slice(alloc, choice.method)?;
    let class = introducer(alloc, kernel, classes, lists, above, place, choice.method)?;
    Ok(Select {
        method: MethodRef { class, name },
        parent,
    })
}

fn parent_place(parents: &[&[u8]], name: &[u8]) -> u8
    requires { length parents.now ≤ 255 }
    ensures { result ≡ place_of (texts parents.now) name.now }
{
    for place in 0..parents.len() {
        if name == parents[place] {
            return place as u8;
        }
    }
    0
}
