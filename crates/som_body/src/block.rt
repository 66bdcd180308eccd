//! Statements and blocks, which hold one another.

ghost use Rattle.som_body.specs.Inner.{plain_statement as plain_statement_of};
ghost use Rattle.som_body.specs.StatementReading as spec;
ghost use Rattle.som_model.specs.declared.limits.TheConstants.{MAX_NESTING};
ghost use Rattle.som_parse.specs.Answer.{Answers};
ghost use Rattle.som_parse.specs.Readers.{keeping, one_more, repeated};
ghost use Rattle.som_parse.specs.Seen.{text_at};
ghost use Rattle.som_parse.specs.Tokens.{head, is_sign};
ghost use Rattle.som_parse.specs.declared.token.Sign.TheVariants as sign;
ghost use Rattle.std.specs.Prelude.{◌≡◌, ◌≤◌, ◌+◌};

use crate::statement::{call, freed, named, own, printed, returned, variable};
use crate::{Line, begins_postfix, is_name, line_at, with_item};
use som_ast::{BlockText, StmtText};
use som_lex::Tokens;
use som_model::List;
use som_parse::{Cursor, Key, Sign, Stop, Token, Turn};
use std::alloc::Global;

fn begins_name(left: &Cursor<'_>) -> bool
    ensures { result ≡ spec.begins_name (head left.now.rest.now) }
{
    match left.peek() {
        Some(Token::Word(key, _)) => is_name(key),
        _ => false,
    }
}

fn begins_stmt(left: &Cursor<'_>) -> bool
    ensures { result ≡ spec.begins_stmt (head left.now.rest.now) }
{
    let token = left.peek();
    match token {
        Some(
            Token::Word(Key::Var | Key::If | Key::While | Key::Return | Key::Print | Key::Free, _),
        ) => true,
        _ => begins_postfix(token),
    }
}

#[cycle(statements)]
fn next_statement(
    alloc: Global,
    tokens: &Tokens,
    left: &mut Cursor<'_>,
    depth: usize,
    so_far: List<StmtText>,
) -> Result<Turn<List<StmtText>, List<StmtText>>, Stop>
    requires { depth ≤ MAX_NESTING }
    ensures { Answers (one_more (is_sign sign.CloseBrace) (keeping (spec.statement_at (text_at tokens.now) depth)) so_far left.old.rest.now) result left.new.rest.now }
{
    if left.sees(Sign::CloseBrace) {
        return Ok(Turn::Done(so_far));
    }
    let next = statement_at(alloc, tokens, left, depth)?;
    let statements = with_item(so_far, next)?;
    Ok(Turn::More(statements))
}

#[tactic(auto, unfolding(som_parse::specs::Readers::repeated, som_parse::specs::Readers::repeat))]
#[cycle(statements)]
fn statements(
    alloc: Global,
    tokens: &Tokens,
    left: &mut Cursor<'_>,
    depth: usize,
) -> Result<List<StmtText>, Stop>
    requires { depth ≤ MAX_NESTING }
    ensures { Answers (repeated (is_sign sign.CloseBrace) (keeping (spec.statement_at (text_at tokens.now) depth)) left.old.rest.now) result left.new.rest.now }
{
    let mut so_far = List::new(alloc);
    for _turn in 0..left.rest.len() + 1 {
        match next_statement(alloc, tokens, left, depth, so_far)? {
            Turn::More(more) => so_far = more,
            Turn::Done(all) => return Ok(all),
        }
    }
    Err(Stop::Syntax)
}

/// A block, for whose statements `depth` levels are left.
#[tactic(auto, unfolding(crate::specs::StatementReading::block))]
#[cycle(statements)]
pub(crate) fn block(
    alloc: Global,
    tokens: &Tokens,
    left: &mut Cursor<'_>,
    depth: usize,
) -> Result<BlockText, Stop>
    requires { depth ≤ MAX_NESTING }
    ensures { Answers (spec.block (text_at tokens.now) (spec.statement_at (text_at tokens.now) depth) (spec.if_at (text_at tokens.now) depth) left.old.rest.now) result left.new.rest.now }
{
    left.expect(Sign::OpenBrace)?;
    let statements = statements(alloc, tokens, left, depth)?;
    left.expect(Sign::CloseBrace)?;
    Ok(BlockText { statements })
}

// After `while`.
#[tactic(auto, unfolding(crate::specs::StatementReading::while_statement))]
#[cycle(statements)]
fn while_statement(
    alloc: Global,
    tokens: &Tokens,
    left: &mut Cursor<'_>,
    depth: usize,
) -> Result<StmtText, Stop>
    requires { depth ≤ MAX_NESTING }
    ensures { Answers (spec.while_statement (text_at tokens.now) (spec.statement_at (text_at tokens.now) depth) (spec.if_at (text_at tokens.now) depth) depth left.old.rest.now) result left.new.rest.now }
{
    left.expect(Sign::Open)?;
    let condition = line_at(alloc, tokens, left, depth, Line::Expr)?;
    left.expect(Sign::Close)?;
    let block = block(alloc, tokens, left, depth)?;
    Ok(StmtText::While {
        condition: condition.tree.into_inner(),
        block,
    })
}

// `else` and what stands after it, or the empty block.
#[tactic(auto, unfolding(crate::specs::StatementReading::else_part))]
#[cycle(statements)]
fn else_part(
    alloc: Global,
    tokens: &Tokens,
    left: &mut Cursor<'_>,
    depth: usize,
) -> Result<BlockText, Stop>
    requires { depth ≤ MAX_NESTING }
    ensures { Answers (spec.else_part (text_at tokens.now) (spec.statement_at (text_at tokens.now) depth) (spec.if_at (text_at tokens.now) depth) left.old.rest.now) result left.new.rest.now }
{
    if !left.sees_word(Key::Else) {
        return Ok(BlockText {
            statements: List::new(alloc),
        });
    }
    left.skip();
    if left.sees(Sign::OpenBrace) {
        return block(alloc, tokens, left, depth);
    }
    let other = if_at(alloc, tokens, left, depth)?;
    let statements = with_item(List::new(alloc), other)?;
    Ok(BlockText { statements })
}

#[tactic(auto, unfolding(crate::specs::StatementReading::if_statement))]
#[cycle(statements)]
fn if_statement(
    alloc: Global,
    tokens: &Tokens,
    left: &mut Cursor<'_>,
    depth: usize,
) -> Result<StmtText, Stop>
    requires { depth ≤ MAX_NESTING }
    ensures { Answers (spec.if_statement (text_at tokens.now) (spec.statement_at (text_at tokens.now) depth) (spec.if_at (text_at tokens.now) depth) depth left.old.rest.now) result left.new.rest.now }
{
    left.keyword(Key::If)?;
    left.expect(Sign::Open)?;
    let condition = line_at(alloc, tokens, left, depth, Line::Expr)?;
    left.expect(Sign::Close)?;
    let then = block(alloc, tokens, left, depth)?;
    let other = else_part(alloc, tokens, left, depth)?;
    Ok(StmtText::If {
        condition: condition.tree.into_inner(),
        then,
        other,
    })
}

// A statement that begins with `return`, `print`, `free` or an expression.
fn plain_statement(
    alloc: Global,
    tokens: &Tokens,
    left: &mut Cursor<'_>,
    depth: usize,
) -> Result<StmtText, Stop>
    requires { depth ≤ MAX_NESTING }
    ensures { Answers (plain_statement_of (text_at tokens.now) depth left.old.rest.now) result left.new.rest.now }
{
    if left.sees_word(Key::Return) {
        left.skip();
        return returned(alloc, tokens, left, depth);
    }
    if left.sees_word(Key::Print) {
        left.skip();
        return printed(alloc, tokens, left, depth);
    }
    if left.sees_word(Key::Free) {
        left.skip();
        return freed(alloc, tokens, left, depth);
    }
    if left.sees_word(Key::SomThis) {
        left.skip();
        return own(alloc, tokens, left, depth);
    }
    if begins_name(left) {
        return named(alloc, tokens, left, depth);
    }
    call(alloc, tokens, left, depth)
}

// A statement below which `depth` levels are left.
#[tactic(auto, unfolding(crate::specs::StatementReading::statement))]
#[cycle(statements)]
fn statement(
    alloc: Global,
    tokens: &Tokens,
    left: &mut Cursor<'_>,
    depth: usize,
) -> Result<StmtText, Stop>
    requires { depth ≤ MAX_NESTING }
    ensures { Answers (spec.statement (text_at tokens.now) (spec.statement_at (text_at tokens.now) depth) (spec.if_at (text_at tokens.now) depth) depth left.old.rest.now) result left.new.rest.now }
{
    if left.sees_word(Key::If) {
        return if_statement(alloc, tokens, left, depth);
    }
    if left.sees_word(Key::Var) {
        left.skip();
        return variable(alloc, tokens, left, depth);
    }
    if left.sees_word(Key::While) {
        left.skip();
        return while_statement(alloc, tokens, left, depth);
    }
    plain_statement(alloc, tokens, left, depth)
}

// A statement where `depth` levels are left.
#[cycle(statements)]
fn statement_at(
    alloc: Global,
    tokens: &Tokens,
    left: &mut Cursor<'_>,
    depth: usize,
) -> Result<StmtText, Stop>
    requires { depth ≤ MAX_NESTING }
    ensures { Answers (spec.statement_at (text_at tokens.now) depth left.old.rest.now) result left.new.rest.now }
{
    if depth == 0 {
        return if begins_stmt(left) {
            Err(Stop::Nesting)
        } else {
            Err(Stop::Syntax)
        };
    }
    statement(alloc, tokens, left, depth - 1)
}

// The statement after `else`, which begins with `if`.
#[cycle(statements)]
fn if_at(
    alloc: Global,
    tokens: &Tokens,
    left: &mut Cursor<'_>,
    depth: usize,
) -> Result<StmtText, Stop>
    requires { depth ≤ MAX_NESTING }
    ensures { Answers (spec.if_at (text_at tokens.now) depth left.old.rest.now) result left.new.rest.now }
{
    if depth == 0 {
        return if left.sees_word(Key::If) {
            Err(Stop::Nesting)
        } else {
            Err(Stop::Syntax)
        };
    }
    if_statement(alloc, tokens, left, depth - 1)
}
