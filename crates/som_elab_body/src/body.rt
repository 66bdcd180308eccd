//! The checker of whole bodies: parameters as the first locals, and then the block.

ghost use Rattle.som_elab_body.specs.BlockCode.{Blocks};
ghost use Rattle.som_elab_body.specs.MethodBody as spec;
ghost use Rattle.som_elab_body.specs.MethodBody.{elaborated_body};
ghost use Rattle.som_elab_body.specs.Statements.{elaborated_block};
ghost use Rattle.som_model.specs.Lists.{doubles, every, first};
ghost use Rattle.som_model.specs.Rules.{is_known};
ghost use Rattle.som_model.specs.Typing.{in_main};
ghost use Rattle.som_order.specs.Names.{texts};
ghost use Rattle.som_verify_classes.specs.Places.{class_of_place};
ghost use Rattle.som_sema_names.specs.Searching.{IsSearch};
ghost use Rattle.som_sema_scope.specs.Words.{words as texts_of};
ghost use Rattle.som_elab_body.specs.Code.{AreLocals, ClassFits, among_by, names_at};
ghost use Rattle.som_verify_forms.specs.Kinds.{IsDeclared};
ghost use Rattle.som_verify_forms.specs.Knowing.{IsKnowledge, all_of, sig_is_known};
ghost use Rattle.std.specs.Prelude.{◌≡◌, ◌≤◌, ◌⊎◌, true, length, is_some, [], IfOk, Some};
ghost use Rattle.std.specs.Str.{bytes_eq};

use crate::fault::BodyFault;
use crate::statements::block;
use crate::{BodyContext, Local};
use indexmap::IndexSet;
use som_ast::{BlockText, BodyText, Word};
use som_model::{Block, MAX_PARAMETERS, NoMemory, Sig, ValueType};
use som_order::note_name;
use som_sema_names::MethodSearch;
use som_sema_scope::Scope;
use som_verify_forms::{CodePlace, Kind, Knowledge, known_kind};
use std::alloc::Global;

/// The block that a text has for a method of the class at a place, or what is first wrong with it: a parameter with the
/// name of one before, and then the statements.
pub fn method_body(
    alloc: Global,
    known: &Knowledge,
    search: &MethodSearch,
    scope: &Scope,
    class: usize,
    sig: &Sig,
    text: &BodyText,
) -> Result<Block, BodyFault>
    requires known { IsKnowledge known.now }
    requires search { IsSearch (all_of known.now) known.now.lists.now search.now }
    requires class { IsDeclared (all_of known.now) class }
    requires fits { ClassFits (all_of known.now) (Some class) }
    requires sig { sig_is_known (all_of known.now) sig.now ≡ true }
    requires few { length sig.now.params ≤ MAX_PARAMETERS }
    ensures { Blocks (elaborated_body (among_by known.now scope.now) (class_of_place (all_of known.now) class) sig.now text.now) result }
{
    let words = text.params.as_slice();
    if has_double(alloc, words)? {
        return Err(BodyFault::Rule(15));
    }
    let mut locals = parameters(alloc, known, sig.params.as_slice(), words)?;
    let at = CodePlace {
        class: Some(class),
        result: known_kind(known, &sig.result),
    };
    let context = BodyContext {
        known: *known,
        search: *search,
        scope,
        at,
    };
    block(alloc, &context, &mut locals, &text.block)
}

// Whether a word stands a second time.
fn has_double(alloc: Global, words: &[Word]) -> Result<bool, NoMemory>
    ensures { IfOk result (λ double. double ≡ is_some (first (doubles bytes_eq [] (texts_of words.now)))) }
{
    let mut seen = IndexSet::new(alloc);
    has_double_after(&mut seen, words)
}

// Whether one of these words was seen before, or stands a second time.
#[tactic(auto, using(crate::proofs::Parameters::word_next))]
fn has_double_after<'a>(seen: &mut IndexSet<&'a [u8]>, words: &'a [Word]) -> Result<bool, NoMemory>
    ensures { IfOk result (λ double. double ≡ is_some (first (doubles bytes_eq (texts seen.old.keys) (texts_of words.now)))) }
{
    for word in words {
        if !note_name(seen, word.text.as_slice())? {
            return Ok(true);
        }
    }
    Ok(false)
}

// The parameters, which are the first locals, as far as there are types for them.
fn parameters<'a>(
    alloc: Global,
    known: &Knowledge,
    types: &[ValueType],
    words: &'a [Word],
) -> Result<Vec<Local<'a>>, NoMemory>
    requires known { IsKnowledge known.now }
    requires types { every (is_known (all_of known.now)) types.now ≡ true }
    requires few { length types.now ≤ MAX_PARAMETERS }
    ensures names { IfOk result (λ locals. names_at (all_of known.now) locals.items ≡ spec.parameters words.now types.now) }
    ensures types { IfOk result (λ locals. AreLocals (all_of known.now) locals.items) }
{
    let count = shorter(words, types);
    let mut locals = Vec::new(alloc);
    for place in 0..count {
        let name = words[place].text.as_slice();
        let kind = known_kind(known, &types[place]);
        locals.push(Local { name, kind })?;
    }
    Ok(locals)
}

// The length of the shorter list.
fn shorter(words: &[Word], types: &[ValueType]) -> usize
    ensures words { result ≤ length words.now }
    ensures types { result ≤ length types.now }
    ensures all { (length words.now ≤ result) ⊎ (length types.now ≤ result) }
{
    if words.len() < types.len() {
        words.len()
    } else {
        types.len()
    }
}

/// The block of main, which has no parameters.
pub fn main_body(
    alloc: Global,
    known: &Knowledge,
    search: &MethodSearch,
    scope: &Scope,
    text: &BlockText,
) -> Result<Block, BodyFault>
    requires known { IsKnowledge known.now }
    requires search { IsSearch (all_of known.now) known.now.lists.now search.now }
    ensures { Blocks (elaborated_block (among_by known.now scope.now) in_main text.now []) result }
{
    let at = CodePlace {
        class: None,
        result: Kind::Void,
    };
    let context = BodyContext {
        known: *known,
        search: *search,
        scope,
        at,
    };
    let mut locals = Vec::new(alloc);
    block(alloc, &context, &mut locals, text)
}
