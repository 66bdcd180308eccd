//! The bodies, overrides and selects of one class, checked in the order of its entries.

ghost use Rattle.som_elab_methods.specs.Accessors.{access, accessors_of as declared_accessors};
ghost use Rattle.som_elab_methods.specs.Bodies.{texts_for};
ghost use Rattle.som_elab_methods.specs.Tables.{accessed};
ghost use Rattle.som_elab.specs.Contexts.{IsModuleContext, among_in, class_steps, classes_in, refused_as, signed_steps};
ghost use Rattle.som_elab.specs.Blocks as spec;
ghost use Rattle.som_elab.specs.Blocks.{Answers, refused_at};
ghost use Rattle.som_elab_methods.specs.Texts.{given};
ghost use Rattle.som_elab_body.specs.MethodBody.{elaborated_body};
ghost use Rattle.som_model.specs.Owner.{owner, sig_of};
ghost use Rattle.som_model.specs.declared.limits.TheConstants.{MAX_PARAMETERS as MOST};
ghost use Rattle.som_verify_classes.specs.Places.{class_of_place};
ghost use Rattle.som_sema_drafts.specs.Drafts.{plain_draft};
ghost use Rattle.som_sema_decls.specs.Finished.{selects_at};
ghost use Rattle.som_sema_drafts.specs.Items.{or_object};
ghost use Rattle.som_sema_names.specs.Noted.{IsKnown};
ghost use Rattle.som_elab_body.specs.Code.{ClassFits};
ghost use Rattle.som_verify_forms.specs.Kinds.{IsDeclared};
ghost use Rattle.som_verify_forms.specs.Knowing.{sig_is_known};
ghost use Rattle.std.specs.Prelude.{◌≡◌, ◌≤◌, length, map, true, IfOk, Some};

use crate::contexts::ModuleContext;
use som_ast::BodyText;
use som_elab_body::{BodyFault, method_body};
use som_elab_methods::{
    Accessor, ModuleTexts, accessor_places, accessors_of, body_named, first_for,
};
use som_model::{
    Block, Body, Entry, List, MAX_LOCALS, MethodRef, NoMemory, Override, Select, Sig, Text,
};
use som_sema_decls::selects;
use som_sema_drafts::{Draft, Refused};
use som_sema_names::Places;
use som_verify_classes::Broken;
use som_verify_forms::{decl_at, signature_of};
use std::alloc::Global;

/// The bodies of the entries that a class introduces, its overrides with their blocks, and its selects.
#[derive(Drop)]
pub struct ClassBodies {
    pub bodies: List<Body>,
    pub overrides: List<Override>,
    pub selects: List<Select>,
}

/// The bodies of the class at a place, or what is first wrong with one of them.
pub fn class_bodies(
    alloc: Global,
    context: &ModuleContext,
    place: usize,
    draft: &Draft,
    texts: &ModuleTexts,
) -> Result<ClassBodies, Refused>
    requires context { IsModuleContext context.now }
    requires place { IsDeclared (classes_in context.now) place }
    requires class { (class_of_place (classes_in context.now) place).decl ≡ draft.now.decl }
    requires fits { ClassFits (classes_in context.now) (Some place) }
    requires parents { length (or_object draft.now.text.now.parents) ≤ 255 }
    ensures { Answers (class_steps (among_in context.now) (given texts.now.all.now) (plain_draft draft.now) (class_of_place (classes_in context.now) place)) result }
{
    let own = texts.of_class(draft.decl.face.name.as_slice());
    own_bodies(alloc, context, place, draft, own)
}

// The bodies of the class at a place, by the texts of this class alone.
fn own_bodies(
    alloc: Global,
    context: &ModuleContext,
    place: usize,
    draft: &Draft,
    own: &[&BodyText],
) -> Result<ClassBodies, Refused>
    requires context { IsModuleContext context.now }
    requires place { IsDeclared (classes_in context.now) place }
    requires class { (class_of_place (classes_in context.now) place).decl ≡ draft.now.decl }
    requires fits { ClassFits (classes_in context.now) (Some place) }
    requires parents { length (or_object draft.now.text.now.parents) ≤ 255 }
    ensures { Answers (class_steps (among_in context.now) (given own.now) (plain_draft draft.now) (class_of_place (classes_in context.now) place)) result }
{
    let bodies = entry_bodies(alloc, context, place, draft, own)?;
    let overrides = override_blocks(alloc, context, place, draft, own)?;
    let selects = class_selects(alloc, context, place, draft)?;
    Ok(ClassBodies {
        bodies,
        overrides,
        selects,
    })
}

// What the text of the class at a place selects.
fn class_selects(
    alloc: Global,
    context: &ModuleContext,
    place: usize,
    draft: &Draft,
) -> Result<List<Select>, NoMemory>
    requires context { IsModuleContext context.now }
    requires place { IsDeclared (classes_in context.now) place }
    requires parents { length (or_object draft.now.text.now.parents) ≤ 255 }
    ensures { IfOk result (λ all. all ≡ selects_at (among_in context.now).classes (class_of_place (classes_in context.now) place).key (plain_draft draft.now)) }
{
    let known = &context.known;
    selects(
        alloc,
        known.kernel,
        known.classes,
        known.lists,
        context.search.introducers,
        draft,
        place,
    )
}

fn entry_bodies(
    alloc: Global,
    context: &ModuleContext,
    place: usize,
    draft: &Draft,
    own: &[&BodyText],
) -> Result<List<Body>, Refused>
    requires context { IsModuleContext context.now }
    requires place { IsDeclared (classes_in context.now) place }
    requires class { (class_of_place (classes_in context.now) place).decl ≡ draft.now.decl }
    requires fits { ClassFits (classes_in context.now) (Some place) }
    ensures { Answers (spec.entry_bodies (among_in context.now) (given own.now) (plain_draft draft.now) (class_of_place (classes_in context.now) place)
        draft.now.decl.face.entries) result }
{
    let accessors = accessors_of(alloc, draft.text)?;
    let names = accessor_places(alloc, &accessors)?;
    bodies_beside(alloc, context, place, draft, own, &accessors, &names)
}

// The bodies of all entries that a class introduces, beside those of its accessors, which stand in a table of their names.
fn bodies_beside(
    alloc: Global,
    context: &ModuleContext,
    place: usize,
    draft: &Draft,
    own: &[&BodyText],
    accessors: &[Accessor],
    names: &Places,
) -> Result<List<Body>, Refused>
    requires context { IsModuleContext context.now }
    requires place { IsDeclared (classes_in context.now) place }
    requires class { (class_of_place (classes_in context.now) place).decl ≡ draft.now.decl }
    requires fits { ClassFits (classes_in context.now) (Some place) }
    requires accessors { map access accessors.now ≡ declared_accessors draft.now.text.now }
    requires names { IsKnown (accessed 0 (map access accessors.now)) names.now }
    ensures { Answers (spec.entry_bodies (among_in context.now) (given own.now) (plain_draft draft.now) (class_of_place (classes_in context.now) place)
        draft.now.decl.face.entries) result }
{
    let mut bodies = List::new(alloc);
    for entry in draft.decl.face.entries.as_slice() {
        let Entry::Introduced { name, sig, .. } = entry else {
            continue;
        };
        let given = body_named(accessors, names, draft, name.as_slice());
        let body = entry_body(alloc, context, place, own, name, sig, given)?;
        bodies.push(body)?;
    }
    Ok(bodies)
}

// The body that an accessor has, or else the one of the texts.
fn entry_body(
    alloc: Global,
    context: &ModuleContext,
    place: usize,
    own: &[&BodyText],
    name: &Text,
    sig: &Sig,
    accessor: Option<Body>,
) -> Result<Body, Refused>
    requires context { IsModuleContext context.now }
    requires place { IsDeclared (classes_in context.now) place }
    requires fits { ClassFits (classes_in context.now) (Some place) }
    requires sig { sig_is_known (classes_in context.now) sig.now ≡ true }
    requires few { length sig.now.params ≤ MOST }
    ensures { Answers (spec.entry_body (among_in context.now) (given own.now) (class_of_place (classes_in context.now) place) name.now sig.now accessor) result }
{
    match accessor {
        Some(body) => Ok(body),
        None => Ok(Body::User(text_block(alloc, context, place, own, name, sig)?)),
    }
}

// The block that the texts have for a method.
fn text_block(
    alloc: Global,
    context: &ModuleContext,
    place: usize,
    own: &[&BodyText],
    name: &Text,
    sig: &Sig,
) -> Result<Block, Refused>
    requires context { IsModuleContext context.now }
    requires place { IsDeclared (classes_in context.now) place }
    requires fits { ClassFits (classes_in context.now) (Some place) }
    requires sig { sig_is_known (classes_in context.now) sig.now ≡ true }
    requires few { length sig.now.params ≤ MOST }
    ensures { Answers (spec.text_block (among_in context.now) (class_of_place (classes_in context.now) place) name.now sig.now
        (texts_for (given own.now) (class_of_place (classes_in context.now) place).decl.face.name name.now)) result }
{
    let class = decl_at(&context.known, place);
    let class = class.face.name.as_slice();
    match first_for(own, class, name.as_slice()) {
        None => Ok(Block {
            statements: List::new(alloc),
        }),
        Some(text) => body_block(alloc, context, place, class, name.as_slice(), sig, text),
    }
}

fn body_block(
    alloc: Global,
    context: &ModuleContext,
    place: usize,
    class: &[u8],
    member: &[u8],
    sig: &Sig,
    text: &BodyText,
) -> Result<Block, Refused>
    requires context { IsModuleContext context.now }
    requires place { IsDeclared (classes_in context.now) place }
    requires fits { ClassFits (classes_in context.now) (Some place) }
    requires sig { sig_is_known (classes_in context.now) sig.now ≡ true }
    requires few { length sig.now.params ≤ MOST }
    ensures { Answers (refused_at class.now member.now (elaborated_body (among_in context.now) (class_of_place (classes_in context.now) place) sig.now text.now)) result }
{
    match method_body(
        alloc,
        &context.known,
        &context.search,
        context.scope,
        place,
        sig,
        text,
    ) {
        Ok(block) => Ok(block),
        Err(fault) => Err(refusal(alloc, class, member, fault)?),
    }
}

/// What is wrong with the body of a member of a class, as it is answered.
pub fn refusal(
    alloc: Global,
    class: &[u8],
    member: &[u8],
    fault: BodyFault,
) -> Result<Refused, NoMemory>
    ensures { IfOk result (λ r. r ≡ refused_as class.now member.now fault) }
{
    match fault {
        BodyFault::Rule(rule) => Ok(Refused::Rule(Broken {
            rule,
            class: Text::from_slice(alloc, class)?,
            member: Text::from_slice(alloc, member)?,
        })),
        BodyFault::TooManyLocals => Ok(Refused::Limit {
            quantity: Text::from_slice(alloc, b"locals")?,
            number: MAX_LOCALS,
        }),
        BodyFault::NoMemory => Ok(Refused::NoMemory),
    }
}

fn override_blocks(
    alloc: Global,
    context: &ModuleContext,
    place: usize,
    draft: &Draft,
    own: &[&BodyText],
) -> Result<List<Override>, Refused>
    requires context { IsModuleContext context.now }
    requires place { IsDeclared (classes_in context.now) place }
    requires class { (class_of_place (classes_in context.now) place).decl ≡ draft.now.decl }
    requires fits { ClassFits (classes_in context.now) (Some place) }
    ensures { Answers (spec.override_blocks (among_in context.now) (given own.now) (class_of_place (classes_in context.now) place) draft.now.decl.overrides) result }
{
    let mut all = List::new(alloc);
    for replaced in draft.decl.overrides.as_slice() {
        let made = override_block(alloc, context, place, own, replaced)?;
        all.push(made)?;
    }
    Ok(all)
}

// An override with the block that the texts have for it, if its method is known.
fn override_block(
    alloc: Global,
    context: &ModuleContext,
    place: usize,
    own: &[&BodyText],
    replaced: &Override,
) -> Result<Override, Refused>
    requires context { IsModuleContext context.now }
    requires place { IsDeclared (classes_in context.now) place }
    requires fits { ClassFits (classes_in context.now) (Some place) }
    ensures { Answers (spec.override_block (among_in context.now) (given own.now) (class_of_place (classes_in context.now) place) replaced.now
        (sig_of (classes_in context.now) (owner (classes_in context.now) replaced.now.method))) result }
{
    match signature_of(&context.known, &replaced.method) {
        None => Ok(replaced.copy(alloc)?),
        Some(sig) => signed_block(alloc, context, place, own, &replaced.method, sig),
    }
}

fn signed_block(
    alloc: Global,
    context: &ModuleContext,
    place: usize,
    own: &[&BodyText],
    method: &MethodRef,
    sig: &Sig,
) -> Result<Override, Refused>
    requires context { IsModuleContext context.now }
    requires place { IsDeclared (classes_in context.now) place }
    requires fits { ClassFits (classes_in context.now) (Some place) }
    requires sig { sig_is_known (classes_in context.now) sig.now ≡ true }
    requires few { length sig.now.params ≤ MOST }
    ensures { Answers (signed_steps (among_in context.now) (given own.now) (class_of_place (classes_in context.now) place) method.now sig.now) result }
{
    let block = text_block(alloc, context, place, own, &method.name, sig)?;
    let method = method.copy(alloc)?;
    Ok(Override { method, block })
}
