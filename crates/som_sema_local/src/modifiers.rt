//! S11: each modifier of a method stands where it may, and once.

ghost use Rattle.som_model.specs.Class.{introduced};
ghost use Rattle.som_model.specs.Lists.{among, first};
ghost use Rattle.som_order.specs.Names.{texts};
ghost use Rattle.som_verify_classes.specs.Told.{Tells};
ghost use Rattle.som_sema_scope.specs.Words.{once};
ghost use Rattle.som_sema_local.specs.OwnRules.{said, misplaced, nothing_said, said_after, text_s11};
ghost use Rattle.som_sema_drafts.specs.Drafts.{plain_draft, plain_drafts};
ghost use Rattle.som_sema_drafts.specs.Items.{given, given_by, replaced as replaced_of};
ghost use Rattle.som_sema_local.specs.OwnRules as rules;
ghost use Rattle.som_sema_drafts.specs.declared.drafts.Draft.{Draft as Known};
ghost use Rattle.std.specs.Prelude.{◌≡◌, ◌<◌, ◌++◌, ◌∷◌, ◌&&◌, true, not, [], length, map, flat_map, slice_get, option_copied, IfOk, Some};

use indexmap::IndexSet;
use som_ast::Modifier;
use som_model::{Entry, NoMemory};
use som_order::{find_name, note_name};
use som_sema_drafts::{Draft, Mark, breach, each_draft, introduced_names, marks, replaced};
use som_sema_scope::table_of;
use som_verify_classes::VerifyFault;
use std::alloc::Global;

/// The methods that the modifiers before a place were given to: `override`, how they are called, and `select`. These are
/// tables; `Said` of the definitions has them as lists.
#[derive(Drop)]
pub struct Said<'a> {
    pub replaced: IndexSet<&'a [u8]>,
    pub called: IndexSet<&'a [u8]>,
    pub selecting: IndexSet<&'a [u8]>,
}

/// S11: each modifier stands where it may.
pub fn modifiers_stand(alloc: Global, drafts: &[Draft]) -> Result<(), VerifyFault>
    ensures { Tells (first (flat_map text_s11 (plain_drafts drafts.now))) result }
{
    each_draft(
        drafts,
        |place: usize| -> Result<(), VerifyFault>
            requires { place < length drafts.now }
            ensures { (d : Known) → slice_get drafts.entry.now place ≡ Some d → Tells (first (text_s11 (plain_draft d))) result }
        { own_modifiers_stand(alloc, &drafts[place]) },
    )
}

fn own_modifiers_stand(alloc: Global, draft: &Draft) -> Result<(), VerifyFault>
    ensures { Tells (first (text_s11 (plain_draft draft.now))) result }
{
    match own_misplaced(alloc, draft)? {
        None => Ok(()),
        Some(name) => Err(breach(alloc, 11, draft, name)?),
    }
}

fn own_misplaced<'a>(alloc: Global, draft: &'a Draft) -> Result<Option<&'a [u8]>, NoMemory>
    ensures { IfOk result (λ name. option_copied name ≡
        first (misplaced (once (introduced draft.now.decl.face.entries)) (replaced_of draft.now.text.now.items) nothing_said (given draft.now.text.now.items))) }
{
    let marks = marks(alloc, draft.text.items.as_slice())?;
    let replaced = replaced(alloc, &marks)?;
    let entries = draft.decl.face.entries.as_slice();
    misplaced_among(alloc, entries, &replaced, &marks)
}

// The method of the first modifier that can't stand, where the class introduces these entries.
fn misplaced_among<'a>(
    alloc: Global,
    entries: &[Entry],
    replaced: &IndexSet<&[u8]>,
    marks: &[Mark<'a>],
) -> Result<Option<&'a [u8]>, NoMemory>
    ensures { IfOk result (λ name. option_copied name ≡
        first (misplaced (once (introduced entries.now)) (texts replaced.now.keys) nothing_said (map given_by marks.now))) }
{
    let own = introduced_table(alloc, entries)?;
    first_misplaced(alloc, &own, replaced, marks)
}

// A table of the names that entries introduce.
fn introduced_table(alloc: Global, entries: &[Entry]) -> Result<IndexSet<&[u8]>, NoMemory>
    ensures { IfOk result (λ own. texts own.keys ≡ once (introduced entries.now)) }
{
    let names = introduced_names(alloc, entries)?;
    table_of(alloc, &names)
}

// The method of the first modifier that can't stand.
fn first_misplaced<'a>(
    alloc: Global,
    own: &IndexSet<&[u8]>,
    replaced: &IndexSet<&[u8]>,
    marks: &[Mark<'a>],
) -> Result<Option<&'a [u8]>, NoMemory>
    ensures { IfOk result (λ name. option_copied name ≡
        first (misplaced (texts own.now.keys) (texts replaced.now.keys) nothing_said (map given_by marks.now))) }
{
    let mut before = Said {
        replaced: IndexSet::new(alloc),
        called: IndexSet::new(alloc),
        selecting: IndexSet::new(alloc),
    };
    misplaced_after(own, replaced, &mut before, marks)
}

fn misplaced_after<'a>(
    own: &IndexSet<&[u8]>,
    replaced: &IndexSet<&[u8]>,
    before: &mut Said<'a>,
    marks: &[Mark<'a>],
) -> Result<Option<&'a [u8]>, NoMemory>
    ensures { IfOk result (λ name. option_copied name ≡
        first (misplaced (texts own.now.keys) (texts replaced.now.keys) (said before.old) (map given_by marks.now))) }
{
    for mark in marks {
        if !may_stand(own, replaced, before, mark)? {
            return Ok(Some(mark.method));
        }
    }
    Ok(None)
}

fn may_stand<'a>(
    own: &IndexSet<&[u8]>,
    replaced: &IndexSet<&[u8]>,
    before: &mut Said<'a>,
    mark: &Mark<'a>,
) -> Result<bool, NoMemory>
    ensures stands { IfOk result (λ b. b ≡ rules.may_stand (texts own.now.keys) (texts replaced.now.keys) (said before.old) (given_by mark.now)) }
    ensures after { IfOk result (λ b. b ≡ true → said before.new ≡ said_after (given_by mark.now) (said before.old)) }
{
    match mark.modifier {
        Modifier::Override => note_name(&mut before.replaced, mark.method),
        Modifier::NameLookup => note_among(own, &mut before.called, mark.method),
        Modifier::Offset => note_among(own, &mut before.called, mark.method),
        Modifier::Select { .. } => note_among(replaced, &mut before.selecting, mark.method),
    }
}

// Notes a method that is one of the known ones; whether it is, and new.
fn note_among<'a>(
    known: &IndexSet<&[u8]>,
    noted: &mut IndexSet<&'a [u8]>,
    method: &'a [u8],
) -> Result<bool, NoMemory>
    ensures stands { IfOk result (λ b. b ≡ (among method.now (texts known.now.keys) && not (among method.now (texts noted.old.keys)))) }
    ensures noted { IfOk result (λ b. b ≡ true → texts noted.new.keys ≡ texts noted.old.keys ++ method.now ∷ []) }
{
    if find_name(known, method).is_none() {
        return Ok(false);
    }
    note_name(noted, method)
}
