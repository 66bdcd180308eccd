//! Bodies, files of bodies, and mains.

ghost use Rattle.som_body.specs.StatementReading as spec;
ghost use Rattle.som_body.specs.Reading as expression;
ghost use Rattle.som_model.specs.declared.limits.TheConstants.{MAX_NESTING};
ghost use Rattle.som_parse.specs.Answer.{Answers};
ghost use Rattle.som_parse.specs.Readers.{another, keeping, listed, one_more, repeated};
ghost use Rattle.som_parse.specs.Seen.{text_at};
ghost use Rattle.som_parse.specs.Tokens.{head};
ghost use Rattle.std.specs.Prelude.{◌≡◌};

use crate::block::block;
use crate::{any_word, name, with_item};
use som_ast::{BlockText, BodyFile, BodyText, MainFile, Word};
use som_lex::Tokens;
use som_model::{List, MAX_NESTING};
use som_parse::{Cursor, Key, Sign, Stop, Turn};
use std::alloc::Global;

fn next_param(
    alloc: Global,
    tokens: &Tokens,
    left: &mut Cursor<'_>,
    so_far: List<Word>,
) -> Result<Turn<List<Word>, List<Word>>, Stop>
    ensures { Answers (another (expression.name (text_at tokens.now)) so_far left.old.rest.now) result left.new.rest.now }
{
    if !left.sees(Sign::Comma) {
        return Ok(Turn::Done(so_far));
    }
    left.skip();
    let next = name(alloc, tokens, left)?;
    let names = with_item(so_far, next)?;
    Ok(Turn::More(names))
}

#[tactic(auto, unfolding(som_parse::specs::Readers::listed, som_parse::specs::Readers::repeat))]
fn some_params(alloc: Global, tokens: &Tokens, left: &mut Cursor<'_>) -> Result<List<Word>, Stop>
    ensures { Answers (listed (expression.name (text_at tokens.now)) left.old.rest.now) result left.new.rest.now }
{
    let first = name(alloc, tokens, left)?;
    let mut so_far = with_item(List::new(alloc), first)?;
    for _turn in 0..left.rest.len() + 1 {
        match next_param(alloc, tokens, left, so_far)? {
            Turn::More(more) => so_far = more,
            Turn::Done(all) => return Ok(all),
        }
    }
    Err(Stop::Syntax)
}

#[tactic(auto, unfolding(crate::specs::StatementReading::params))]
fn params(alloc: Global, tokens: &Tokens, left: &mut Cursor<'_>) -> Result<List<Word>, Stop>
    ensures { Answers (spec.params (text_at tokens.now) left.old.rest.now) result left.new.rest.now }
{
    left.expect(Sign::Open)?;
    if left.sees(Sign::Close) {
        left.skip();
        return Ok(List::new(alloc));
    }
    let names = some_params(alloc, tokens, left)?;
    left.expect(Sign::Close)?;
    Ok(names)
}

// The block of a body or a main.
fn whole_block(alloc: Global, tokens: &Tokens, left: &mut Cursor<'_>) -> Result<BlockText, Stop>
    ensures { Answers (spec.block (text_at tokens.now) (spec.statement_at (text_at tokens.now) MAX_NESTING) (spec.if_at (text_at tokens.now) MAX_NESTING) left.old.rest.now) result left.new.rest.now }
{
    block(alloc, tokens, left, MAX_NESTING as usize)
}

#[tactic(auto, unfolding(crate::specs::StatementReading::body))]
fn body(alloc: Global, tokens: &Tokens, left: &mut Cursor<'_>) -> Result<BodyText, Stop>
    ensures { Answers (spec.body (text_at tokens.now) MAX_NESTING left.old.rest.now) result left.new.rest.now }
{
    let class = any_word(alloc, tokens, left)?;
    left.expect(Sign::DoubleColon)?;
    let method = any_word(alloc, tokens, left)?;
    let params = params(alloc, tokens, left)?;
    let block = whole_block(alloc, tokens, left)?;
    Ok(BodyText {
        class,
        method,
        params,
        block,
    })
}

fn is_at_end(left: &Cursor<'_>) -> bool
    ensures { result ≡ spec.ends_file (head left.now.rest.now) }
{
    match left.peek() {
        None => true,
        Some(_) => false,
    }
}

fn next_body(
    alloc: Global,
    tokens: &Tokens,
    left: &mut Cursor<'_>,
    so_far: List<BodyText>,
) -> Result<Turn<List<BodyText>, List<BodyText>>, Stop>
    ensures { Answers (one_more spec.ends_file (keeping (spec.body (text_at tokens.now) MAX_NESTING)) so_far left.old.rest.now) result left.new.rest.now }
{
    if is_at_end(left) {
        return Ok(Turn::Done(so_far));
    }
    let next = body(alloc, tokens, left)?;
    let bodies = with_item(so_far, next)?;
    Ok(Turn::More(bodies))
}

#[tactic(auto, unfolding(som_parse::specs::Readers::repeated, som_parse::specs::Readers::repeat))]
fn bodies(alloc: Global, tokens: &Tokens, left: &mut Cursor<'_>) -> Result<List<BodyText>, Stop>
    ensures { Answers (repeated spec.ends_file (keeping (spec.body (text_at tokens.now) MAX_NESTING)) left.old.rest.now) result left.new.rest.now }
{
    let mut so_far = List::new(alloc);
    for _turn in 0..left.rest.len() + 1 {
        match next_body(alloc, tokens, left, so_far)? {
            Turn::More(more) => so_far = more,
            Turn::Done(all) => return Ok(all),
        }
    }
    Err(Stop::Syntax)
}

/// Reads a whole file of bodies, up to the end of its tokens.
#[tactic(auto, unfolding(crate::specs::StatementReading::body_file))]
pub(crate) fn body_file(
    alloc: Global,
    tokens: &Tokens,
    left: &mut Cursor<'_>,
) -> Result<BodyFile, Stop>
    ensures { Answers (spec.body_file (text_at tokens.now) MAX_NESTING left.old.rest.now) result left.new.rest.now }
{
    let bodies = bodies(alloc, tokens, left)?;
    left.end()?;
    Ok(BodyFile { bodies })
}

/// Reads the file of a main, up to the end of its tokens.
#[tactic(auto, unfolding(crate::specs::StatementReading::main_file))]
pub(crate) fn main_file(
    alloc: Global,
    tokens: &Tokens,
    left: &mut Cursor<'_>,
) -> Result<MainFile, Stop>
    ensures { Answers (spec.main_file (text_at tokens.now) MAX_NESTING left.old.rest.now) result left.new.rest.now }
{
    left.keyword(Key::Main)?;
    let block = whole_block(alloc, tokens, left)?;
    left.end()?;
    Ok(MainFile { block })
}
