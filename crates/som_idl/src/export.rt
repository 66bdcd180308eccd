//! Attributes and operations.

ghost use Rattle.som_idl.specs.Reading as spec;
ghost use Rattle.som_parse.specs.Answer.{Answers};
ghost use Rattle.som_parse.specs.Readers.{another, keeping, listed, one_more};
ghost use Rattle.som_parse.specs.Seen.{text_at};
ghost use Rattle.som_parse.specs.Tokens.{head};
ghost use Rattle.std.specs.Prelude.{◌≡◌};

use crate::name::{kind, name, names, outcome};
use som_ast::{Export, Param};
use som_lex::Tokens;
use som_model::List;
use som_parse::{Cursor, Key, Sign, Stop, Turn};
use std::alloc::Global;

#[tactic(auto, unfolding(crate::specs::Reading::param))]
fn param(alloc: Global, tokens: &Tokens, left: &mut Cursor<'_>) -> Result<Param, Stop>
    ensures { Answers (spec.param (text_at tokens.now) left.old.rest.now) result left.new.rest.now }
{
    left.keyword(Key::In)?;
    let kind = kind(alloc, tokens, left)?;
    let name = name(alloc, tokens, left)?;
    Ok(Param { kind, name })
}

fn next_param(
    alloc: Global,
    tokens: &Tokens,
    left: &mut Cursor<'_>,
    so_far: List<Param>,
) -> Result<Turn<List<Param>, List<Param>>, Stop>
    ensures { Answers (another (spec.param (text_at tokens.now)) so_far left.old.rest.now) result left.new.rest.now }
{
    if !left.sees(Sign::Comma) {
        return Ok(Turn::Done(so_far));
    }
    left.skip();
    let next = param(alloc, tokens, left)?;
    let mut params = so_far;
    params.push(next)?;
    Ok(Turn::More(params))
}

#[tactic(auto, unfolding(som_parse::specs::Readers::listed, som_parse::specs::Readers::repeat))]
fn some_params(alloc: Global, tokens: &Tokens, left: &mut Cursor<'_>) -> Result<List<Param>, Stop>
    ensures { Answers (listed (spec.param (text_at tokens.now)) left.old.rest.now) result left.new.rest.now }
{
    let first = param(alloc, tokens, left)?;
    let mut so_far = List::new(alloc);
    so_far.push(first)?;
    for _turn in 0..left.rest.len() + 1 {
        match next_param(alloc, tokens, left, so_far)? {
            Turn::More(more) => so_far = more,
            Turn::Done(all) => return Ok(all),
        }
    }
    Err(Stop::Syntax)
}

#[tactic(auto, unfolding(crate::specs::Reading::params))]
fn params(alloc: Global, tokens: &Tokens, left: &mut Cursor<'_>) -> Result<List<Param>, Stop>
    ensures { Answers (spec.params (text_at tokens.now) left.old.rest.now) result left.new.rest.now }
{
    left.expect(Sign::Open)?;
    if left.sees(Sign::Close) {
        left.skip();
        return Ok(List::new(alloc));
    }
    let found = some_params(alloc, tokens, left)?;
    left.expect(Sign::Close)?;
    Ok(found)
}

#[tactic(auto, unfolding(crate::specs::Reading::attribute))]
fn attribute(
    alloc: Global,
    tokens: &Tokens,
    left: &mut Cursor<'_>,
    readonly: bool,
) -> Result<Export, Stop>
    ensures { Answers (spec.attribute (text_at tokens.now) readonly left.old.rest.now) result left.new.rest.now }
{
    left.keyword(Key::Attribute)?;
    let kind = kind(alloc, tokens, left)?;
    let names = names(alloc, tokens, left)?;
    left.expect(Sign::Semicolon)?;
    Ok(Export::Attribute {
        readonly,
        kind,
        names,
    })
}

#[tactic(auto, unfolding(crate::specs::Reading::operation))]
fn operation(alloc: Global, tokens: &Tokens, left: &mut Cursor<'_>) -> Result<Export, Stop>
    ensures { Answers (spec.operation (text_at tokens.now) left.old.rest.now) result left.new.rest.now }
{
    let result = outcome(alloc, tokens, left)?;
    let name = name(alloc, tokens, left)?;
    let params = params(alloc, tokens, left)?;
    left.expect(Sign::Semicolon)?;
    Ok(Export::Operation {
        result,
        name,
        params,
    })
}

#[tactic(auto, unfolding(crate::specs::Reading::export))]
fn export(alloc: Global, tokens: &Tokens, left: &mut Cursor<'_>) -> Result<Export, Stop>
    ensures { Answers (spec.export (text_at tokens.now) left.old.rest.now) result left.new.rest.now }
{
    if left.sees_word(Key::Readonly) {
        left.skip();
        return attribute(alloc, tokens, left, true);
    }
    if left.sees_word(Key::Attribute) {
        return attribute(alloc, tokens, left, false);
    }
    operation(alloc, tokens, left)
}

fn ends_exports(left: &Cursor<'_>) -> bool
    ensures { result ≡ spec.ends_exports (head left.now.rest.now) }
{
    left.sees(Sign::CloseBrace) || left.sees_word(Key::Implementation)
}

fn next_export(
    alloc: Global,
    tokens: &Tokens,
    left: &mut Cursor<'_>,
    so_far: List<Export>,
) -> Result<Turn<List<Export>, List<Export>>, Stop>
    ensures { Answers (one_more spec.ends_exports (keeping (spec.export (text_at tokens.now))) so_far left.old.rest.now) result left.new.rest.now }
{
    if ends_exports(left) {
        return Ok(Turn::Done(so_far));
    }
    let next = export(alloc, tokens, left)?;
    let mut exports = so_far;
    exports.push(next)?;
    Ok(Turn::More(exports))
}

/// The exports up to the implementation section or the end of the interface.
#[tactic(auto, unfolding(crate::specs::Reading::exports_at, som_parse::specs::Readers::repeated, som_parse::specs::Readers::repeat))]
pub(crate) fn exports(
    alloc: Global,
    tokens: &Tokens,
    left: &mut Cursor<'_>,
) -> Result<List<Export>, Stop>
    ensures { Answers (spec.exports_at (text_at tokens.now) left.old.rest.now) result left.new.rest.now }
{
    let mut so_far = List::new(alloc);
    for _turn in 0..left.rest.len() + 1 {
        match next_export(alloc, tokens, left, so_far)? {
            Turn::More(more) => so_far = more,
            Turn::Done(all) => return Ok(all),
        }
    }
    Err(Stop::Syntax)
}
