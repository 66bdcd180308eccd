//! Implementation sections, interfaces and files.

ghost use Rattle.som_idl.specs.Reading as spec;
ghost use Rattle.som_parse.specs.Answer.{Answers};
ghost use Rattle.som_parse.specs.Readers.{one_more, repeated};
ghost use Rattle.som_parse.specs.Seen.{text_at};
ghost use Rattle.som_parse.specs.Tokens.{head};
ghost use Rattle.std.specs.Prelude.{◌≡◌};

use crate::export::exports;
use crate::item::items;
use crate::name::{name, names};
use som_ast::{Export, IdlFile, IdlInterface, Item, Word};
use som_lex::Tokens;
use som_model::List;
use som_parse::{Cursor, Key, Sign, Stop, Turn};
use std::alloc::Global;

// The items of the implementation section, if there is one, and the exports after it.
#[tactic(auto, unfolding(crate::specs::Reading::section))]
fn section(
    alloc: Global,
    tokens: &Tokens,
    left: &mut Cursor<'_>,
) -> Result<(List<Item>, List<Export>), Stop>
    ensures { Answers (spec.section (text_at tokens.now) left.old.rest.now) result left.new.rest.now }
{
    if !left.sees_word(Key::Implementation) {
        return Ok((List::new(alloc), List::new(alloc)));
    }
    left.skip();
    left.expect(Sign::OpenBrace)?;
    let items = items(alloc, tokens, left)?;
    left.expect(Sign::CloseBrace)?;
    left.expect(Sign::Semicolon)?;
    let after = exports(alloc, tokens, left)?;
    Ok((items, after))
}

#[tactic(auto, unfolding(crate::specs::Reading::parents))]
fn parents(alloc: Global, tokens: &Tokens, left: &mut Cursor<'_>) -> Result<List<Word>, Stop>
    ensures { Answers (spec.parents (text_at tokens.now) left.old.rest.now) result left.new.rest.now }
{
    if !left.sees(Sign::Colon) {
        return Ok(List::new(alloc));
    }
    left.skip();
    names(alloc, tokens, left)
}

// After `interface` and the name.
#[tactic(auto, unfolding(crate::specs::Reading::interface_of))]
fn interface_of(
    alloc: Global,
    tokens: &Tokens,
    left: &mut Cursor<'_>,
    name: Word,
) -> Result<Option<IdlInterface>, Stop>
    ensures { Answers (spec.interface_of (text_at tokens.now) name left.old.rest.now) result left.new.rest.now }
{
    let parents = parents(alloc, tokens, left)?;
    left.expect(Sign::OpenBrace)?;
    let before = exports(alloc, tokens, left)?;
    let (items, after) = section(alloc, tokens, left)?;
    left.expect(Sign::CloseBrace)?;
    left.expect(Sign::Semicolon)?;
    Ok(Some(IdlInterface {
        name,
        parents,
        before,
        items,
        after,
    }))
}

// An interface, or none for a forward declaration.
#[tactic(auto, unfolding(crate::specs::Reading::entry))]
fn entry(
    alloc: Global,
    tokens: &Tokens,
    left: &mut Cursor<'_>,
) -> Result<Option<IdlInterface>, Stop>
    ensures { Answers (spec.entry (text_at tokens.now) left.old.rest.now) result left.new.rest.now }
{
    left.keyword(Key::Interface)?;
    let name = name(alloc, tokens, left)?;
    if left.sees(Sign::Semicolon) {
        left.skip();
        return Ok(None);
    }
    interface_of(alloc, tokens, left, name)
}

fn is_at_end(left: &Cursor<'_>) -> bool
    ensures { result ≡ spec.ends_file (head left.now.rest.now) }
{
    match left.peek() {
        None => true,
        Some(_) => false,
    }
}

fn next_entry(
    alloc: Global,
    tokens: &Tokens,
    left: &mut Cursor<'_>,
    so_far: List<IdlInterface>,
) -> Result<Turn<List<IdlInterface>, List<IdlInterface>>, Stop>
    ensures { Answers (one_more spec.ends_file (spec.entry (text_at tokens.now)) so_far left.old.rest.now) result left.new.rest.now }
{
    if is_at_end(left) {
        return Ok(Turn::Done(so_far));
    }
    let next = entry(alloc, tokens, left)?;
    let mut interfaces = so_far;
    if let Some(next) = next {
        interfaces.push(next)?;
    }
    Ok(Turn::More(interfaces))
}

#[tactic(auto, unfolding(som_parse::specs::Readers::repeated, som_parse::specs::Readers::repeat))]
fn entries(
    alloc: Global,
    tokens: &Tokens,
    left: &mut Cursor<'_>,
) -> Result<List<IdlInterface>, Stop>
    ensures { Answers (repeated spec.ends_file (spec.entry (text_at tokens.now)) left.old.rest.now) result left.new.rest.now }
{
    let mut so_far = List::new(alloc);
    for _turn in 0..left.rest.len() + 1 {
        match next_entry(alloc, tokens, left, so_far)? {
            Turn::More(more) => so_far = more,
            Turn::Done(all) => return Ok(all),
        }
    }
    Err(Stop::Syntax)
}

/// Reads a whole file, up to the end of its tokens.
#[tactic(auto, unfolding(crate::specs::Reading::file))]
pub(crate) fn file(alloc: Global, tokens: &Tokens, left: &mut Cursor<'_>) -> Result<IdlFile, Stop>
    ensures { Answers (spec.file (text_at tokens.now) left.old.rest.now) result left.new.rest.now }
{
    let interfaces = entries(alloc, tokens, left)?;
    left.end()?;
    Ok(IdlFile { interfaces })
}
