//! Statements without blocks.

ghost use Rattle.som_body.specs.Inner.{own_rest as own_rest_of};
ghost use Rattle.som_body.specs.StatementReading as spec;
ghost use Rattle.som_body.specs.Statements.{is_call as is_call_of};
ghost use Rattle.som_model.specs.declared.limits.TheConstants.{MAX_NESTING};
ghost use Rattle.som_parse.specs.Answer.{Answers};
ghost use Rattle.som_parse.specs.Seen.{text_at};
ghost use Rattle.std.specs.Prelude.{◌≡◌, ◌≤◌};

use crate::{Line, Tall, any_word, kind, line_at, name, steps_from};
use som_ast::{ExprText, StmtText, Word};
use som_lex::Tokens;
use som_parse::{Cursor, Sign, Stop};
use std::alloc::Global;

#[tactic(auto, unfolding(crate::specs::Statements::is_call))]
fn is_call(expr: &ExprText) -> bool
    ensures { result ≡ is_call_of expr.now }
{
    match expr {
        ExprText::Call { .. }
        | ExprText::Lookup { .. }
        | ExprText::Dispatch { .. }
        | ExprText::Parent { .. }
        | ExprText::Parents { .. } => true,
        _ => false,
    }
}

// The end of a statement that is an expression, which has to be a call.
fn finish(left: &mut Cursor<'_>, whole: Tall) -> Result<StmtText, Stop>
    ensures { Answers (spec.finish whole left.old.rest.now) result left.new.rest.now }
{
    if !is_call(whole.tree.get()) {
        return Err(Stop::Syntax);
    }
    left.expect(Sign::Semicolon)?;
    Ok(StmtText::Call {
        call: whole.tree.into_inner(),
    })
}

// After `var`.
#[tactic(auto, unfolding(crate::specs::StatementReading::variable, crate::specs::StatementReading::ending))]
pub(crate) fn variable(
    alloc: Global,
    tokens: &Tokens,
    left: &mut Cursor<'_>,
    depth: usize,
) -> Result<StmtText, Stop>
    requires { depth ≤ MAX_NESTING }
    ensures { Answers (spec.variable (text_at tokens.now) depth left.old.rest.now) result left.new.rest.now }
{
    let name = name(alloc, tokens, left)?;
    left.expect(Sign::Colon)?;
    let kind = kind(alloc, tokens, left)?;
    left.expect(Sign::Assign)?;
    let value = line_at(alloc, tokens, left, depth, Line::Expr)?;
    left.expect(Sign::Semicolon)?;
    Ok(StmtText::Var {
        name,
        kind,
        value: value.tree.into_inner(),
    })
}

// A statement that begins with a name.
#[tactic(auto, unfolding(crate::specs::StatementReading::named_statement, crate::specs::StatementReading::ending))]
pub(crate) fn named(
    alloc: Global,
    tokens: &Tokens,
    left: &mut Cursor<'_>,
    depth: usize,
) -> Result<StmtText, Stop>
    requires { depth ≤ MAX_NESTING }
    ensures { Answers (spec.named_statement (text_at tokens.now) depth left.old.rest.now) result left.new.rest.now }
{
    let name = name(alloc, tokens, left)?;
    if !left.sees(Sign::Assign) {
        let whole = steps_from(alloc, tokens, left, depth, ExprText::Name(name))?;
        return finish(left, whole);
    }
    left.skip();
    let value = line_at(alloc, tokens, left, depth, Line::Expr)?;
    left.expect(Sign::Semicolon)?;
    Ok(StmtText::Set {
        name,
        value: value.tree.into_inner(),
    })
}

// After `somThis`, `.` and the word.
#[tactic(auto, unfolding(crate::specs::StatementReading::ending))]
fn own_rest(
    alloc: Global,
    tokens: &Tokens,
    left: &mut Cursor<'_>,
    depth: usize,
    name: Word,
) -> Result<StmtText, Stop>
    requires { depth ≤ MAX_NESTING }
    ensures { Answers (own_rest_of (text_at tokens.now) depth name left.old.rest.now) result left.new.rest.now }
{
    if !left.sees(Sign::Assign) {
        let whole = steps_from(alloc, tokens, left, depth, ExprText::Variable(name))?;
        return finish(left, whole);
    }
    left.skip();
    let value = line_at(alloc, tokens, left, depth, Line::Expr)?;
    left.expect(Sign::Semicolon)?;
    Ok(StmtText::SetVariable {
        name,
        value: value.tree.into_inner(),
    })
}

// After `somThis`.
#[tactic(auto, unfolding(crate::specs::StatementReading::own_statement))]
pub(crate) fn own(
    alloc: Global,
    tokens: &Tokens,
    left: &mut Cursor<'_>,
    depth: usize,
) -> Result<StmtText, Stop>
    requires { depth ≤ MAX_NESTING }
    ensures { Answers (spec.own_statement (text_at tokens.now) depth left.old.rest.now) result left.new.rest.now }
{
    left.expect(Sign::Dot)?;
    let name = any_word(alloc, tokens, left)?;
    own_rest(alloc, tokens, left, depth, name)
}

// After `return`.
#[tactic(auto, unfolding(crate::specs::StatementReading::returned, crate::specs::StatementReading::ending))]
pub(crate) fn returned(
    alloc: Global,
    tokens: &Tokens,
    left: &mut Cursor<'_>,
    depth: usize,
) -> Result<StmtText, Stop>
    requires { depth ≤ MAX_NESTING }
    ensures { Answers (spec.returned (text_at tokens.now) depth left.old.rest.now) result left.new.rest.now }
{
    if left.sees(Sign::Semicolon) {
        left.skip();
        return Ok(StmtText::Return { value: None });
    }
    let value = line_at(alloc, tokens, left, depth, Line::Expr)?;
    left.expect(Sign::Semicolon)?;
    Ok(StmtText::Return {
        value: Some(value.tree.into_inner()),
    })
}

// After `print`.
#[tactic(auto, unfolding(crate::specs::StatementReading::ending))]
pub(crate) fn printed(
    alloc: Global,
    tokens: &Tokens,
    left: &mut Cursor<'_>,
    depth: usize,
) -> Result<StmtText, Stop>
    requires { depth ≤ MAX_NESTING }
    ensures { Answers (spec.ending (text_at tokens.now) depth (λ a. StmtText.Print a) left.old.rest.now) result left.new.rest.now }
{
    let value = line_at(alloc, tokens, left, depth, Line::Expr)?;
    left.expect(Sign::Semicolon)?;
    Ok(StmtText::Print {
        value: value.tree.into_inner(),
    })
}

// After `free`.
#[tactic(auto, unfolding(crate::specs::StatementReading::ending))]
pub(crate) fn freed(
    alloc: Global,
    tokens: &Tokens,
    left: &mut Cursor<'_>,
    depth: usize,
) -> Result<StmtText, Stop>
    requires { depth ≤ MAX_NESTING }
    ensures { Answers (spec.ending (text_at tokens.now) depth (λ a. StmtText.Free a) left.old.rest.now) result left.new.rest.now }
{
    let value = line_at(alloc, tokens, left, depth, Line::Expr)?;
    left.expect(Sign::Semicolon)?;
    Ok(StmtText::Free {
        value: value.tree.into_inner(),
    })
}

// A statement that begins with another expression.
#[tactic(auto, unfolding(crate::specs::StatementReading::call_statement))]
pub(crate) fn call(
    alloc: Global,
    tokens: &Tokens,
    left: &mut Cursor<'_>,
    depth: usize,
) -> Result<StmtText, Stop>
    requires { depth ≤ MAX_NESTING }
    ensures { Answers (spec.call_statement (text_at tokens.now) depth left.old.rest.now) result left.new.rest.now }
{
    let whole = line_at(alloc, tokens, left, depth, Line::Postfix)?;
    finish(left, whole)
}
