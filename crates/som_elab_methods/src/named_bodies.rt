//! S13: each body is for a declared or overridden method, and takes as many parameters.

ghost use Rattle.som_elab_methods.specs.Bodies as spec;
ghost use Rattle.som_elab_methods.specs.Bodies.{draft_named, stands_for, text_s13};
ghost use Rattle.som_elab_methods.specs.OwnDrafts.{draft_of, drafts_in};
ghost use Rattle.som_elab_methods.specs.Texts as places;
ghost use Rattle.som_elab_methods.specs.Texts.{given};
ghost use Rattle.som_model.specs.Lists.{first};
ghost use Rattle.som_verify_classes.specs.Told.{Tells};
ghost use Rattle.som_verify_classes.specs.declared.types.VerifyFault.TheVariants as faults;
ghost use Rattle.som_sema_drafts.specs.Drafts.{plain_draft, plain_drafts};
ghost use Rattle.som_sema_names.specs.Noted.{IsKnown};
ghost use Rattle.som_verify_forms.specs.Knowing.{IsKnowledge, all_of};
ghost use Rattle.std.specs.Prelude.{◌≡◌, flat_map, option_copied, option_map, slice_get, IfOk};

use crate::grouped::ModuleTexts;
use crate::own_methods::OwnMethods;
use som_ast::BodyText;
use som_model::{Entry, NoMemory, Sig};
use som_sema_drafts::Draft;
use som_sema_names::{Places, first_place, note, place_table};
use som_verify_classes::{Broken, VerifyFault};
use som_verify_forms::{Knowledge, signature_of};
use std::alloc::Global;

/// S13: each body names a class of the texts, and a method that the class declares by an operation or overrides and that has
/// as many parameters.
pub fn bodies_named(
    alloc: Global,
    known: &Knowledge,
    drafts: &[Draft],
    texts: &ModuleTexts,
) -> Result<(), VerifyFault>
    requires { IsKnowledge known.now }
    ensures { Tells (first (flat_map (text_s13 (all_of known.now) (plain_drafts drafts.now)) (given texts.now.all.now))) result }
{
    let names = class_places(alloc, drafts)?;
    let classes = own_methods(alloc, drafts)?;
    each_named(alloc, known, classes.as_slice(), &names, texts.all)
}

// The methods of each interface.
fn own_methods<'d, 'b>(
    alloc: Global,
    drafts: &'d [Draft<'b>],
) -> Result<Vec<OwnMethods<'d, 'b>>, NoMemory>
    ensures { IfOk result (λ all. drafts_in all.items ≡ plain_drafts drafts.now) }
{
    let mut all = Vec::new(alloc);
    for draft in drafts {
        all.push(OwnMethods::noted(alloc, draft)?)?;
    }
    Ok(all)
}

fn each_named(
    alloc: Global,
    known: &Knowledge,
    classes: &[OwnMethods],
    names: &Places,
    texts: &[&BodyText],
) -> Result<(), VerifyFault>
    requires known { IsKnowledge known.now }
    requires names { IsKnown (places.class_places 0 (drafts_in classes.now)) names.now }
    ensures { Tells (first (flat_map (text_s13 (all_of known.now) (drafts_in classes.now)) (given texts.now))) result }
{
    for text in texts {
        let text = *text;
        if !stands(known, classes, names, text) {
            return Err(wrong_body(alloc, text)?);
        }
    }
    Ok(())
}

/// The names of classes with their places.
fn class_places<'a>(alloc: Global, drafts: &'a [Draft]) -> Result<Places<'a>, NoMemory>
    ensures { IfOk result (IsKnown (places.class_places 0 (plain_drafts drafts.now))) }
{
    let mut all = Vec::new(alloc);
    for place in 0..drafts.len() {
        let draft = &drafts[place];
        note(&mut all, draft.decl.face.name.as_slice(), place)?;
    }
    place_table(alloc, &all)
}

fn wrong_body(alloc: Global, text: &BodyText) -> Result<VerifyFault, NoMemory>
    ensures { IfOk result (λ e. e ≡ faults.Rule (record { rule = 13; class = text.now.class.text; member = text.now.method.text })) }
{
    Ok(VerifyFault::Rule(Broken {
        rule: 13,
        class: text.class.text.copy(alloc)?,
        member: text.method.text.copy(alloc)?,
    }))
}

fn stands(known: &Knowledge, classes: &[OwnMethods], names: &Places, text: &BodyText) -> bool
    requires known { IsKnowledge known.now }
    requires names { IsKnown (places.class_places 0 (drafts_in classes.now)) names.now }
    ensures { result ≡ stands_for (all_of known.now) text.now (draft_named (drafts_in classes.now) text.now.class.text) }
{
    match find_class(classes, names, text.class.text.as_slice()) {
        None => false,
        Some(class) => takes_as_many(known, class, text),
    }
}

fn find_class<'a, 'd, 'b>(
    classes: &'a [OwnMethods<'d, 'b>],
    names: &Places,
    name: &[u8],
) -> Option<&'a OwnMethods<'d, 'b>>
    requires { IsKnown (places.class_places 0 (drafts_in classes.now)) names.now }
    ensures { option_map (λ m. plain_draft (draft_of m)) (option_copied result) ≡ draft_named (drafts_in classes.now) name.now }
{
    match first_place(names, name) {
        None => None,
        Some(place) => class_at(classes, place),
    }
}

fn class_at<'a, 'd, 'b>(
    classes: &'a [OwnMethods<'d, 'b>],
    place: usize,
) -> Option<&'a OwnMethods<'d, 'b>>
    ensures { option_copied result ≡ slice_get classes.now place }
{
    classes.get(place)
}

fn takes_as_many(known: &Knowledge, class: &OwnMethods, text: &BodyText) -> bool
    requires { IsKnowledge known.now }
    ensures { result ≡ spec.takes_as_many text.now (spec.body_sig (all_of known.now) (plain_draft (draft_of class.now)) text.now.method.text) }
{
    match body_sig(known, class, text.method.text.as_slice()) {
        None => false,
        Some(sig) => text.params.len() == sig.params.len(),
    }
}

fn body_sig<'a, 'b>(
    known: &Knowledge<'a>,
    class: &OwnMethods<'a, 'b>,
    name: &[u8],
) -> Option<&'a Sig>
    requires { IsKnowledge known.now }
    ensures { option_copied result ≡ spec.body_sig (all_of known.now) (plain_draft (draft_of class.now)) name.now }
{
    match operation_sig(class, name) {
        Some(sig) => Some(sig),
        None => override_sig(known, class, name),
    }
}

fn operation_sig<'a, 'b>(class: &OwnMethods<'a, 'b>, name: &[u8]) -> Option<&'a Sig>
    ensures { option_copied result ≡ spec.operation_sig (plain_draft (draft_of class.now)) name.now }
{
    if !class.declares(name) {
        return None;
    }
    match class.entry(name) {
        Some(Entry::Introduced { sig, .. }) => Some(sig),
        _ => None,
    }
}

fn override_sig<'a, 'b>(
    known: &Knowledge<'a>,
    class: &OwnMethods<'a, 'b>,
    name: &[u8],
) -> Option<&'a Sig>
    requires { IsKnowledge known.now }
    ensures { option_copied result ≡ spec.override_sig (all_of known.now) (plain_draft (draft_of class.now)) name.now }
{
    match class.replaced(name) {
        None => None,
        Some(replaced) => signature_of(known, &replaced.method),
    }
}
