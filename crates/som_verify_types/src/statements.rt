//! Types the statements of blocks, with a scope that ends where its block ends.

ghost use Rattle.som_model.specs.TypedBlocks.{var_scope};
ghost use Rattle.som_verify_forms.specs.Kinds.{AreTypes, PlaceStands};
ghost use Rattle.som_verify_forms.specs.Knowing.{IsKnowledge, all_of, facts_of};
ghost use Rattle.som_verify_forms.specs.Scopes.{Closes, Scopes, blocked_by, if_scope, scope_at, stated_by, then_scope, valued_by, while_scope};

use crate::expressions::value_kind;
use crate::plain_statements::{
    call_stands, demand, is_freed, is_printed, return_stands, set_local, set_variable,
    value_returns,
};
use som_model::{Block, Expr, Stmt, ValueType};
use som_verify_forms::{CodePlace, Kind, Knowledge, TypeFault, is_boolean, kind_fits, kind_of};
use std::alloc::Global;

/// Whether the statements of a block are well typed, one after the other; what it declares is in scope to its
/// end alone.
#[cycle(statements)]
pub fn block_typed(
    alloc: Global,
    known: &Knowledge,
    at: &CodePlace,
    scope: &mut Vec<Kind>,
    block: &Block,
) -> Result<(), TypeFault>
    requires known { IsKnowledge known.now }
    requires at { PlaceStands (all_of known.now) at.now }
    requires scope { AreTypes (all_of known.now) scope.old.items }
    ensures { Closes (blocked_by known.now at.now scope.old.items block.now) scope.old.items scope.new.items result }
{
    let before = scope.as_slice().len();
    for statement in block.statements.as_slice() {
        statement_typed(alloc, known, at, scope, statement)?;
    }
    scope.truncate(before);
    Ok(())
}

// Whether a statement is well typed; what it declares is in scope after it.
#[cycle(statements)]
fn statement_typed(
    alloc: Global,
    known: &Knowledge,
    at: &CodePlace,
    scope: &mut Vec<Kind>,
    statement: &Stmt,
) -> Result<(), TypeFault>
    requires known { IsKnowledge known.now }
    requires at { PlaceStands (all_of known.now) at.now }
    requires scope { AreTypes (all_of known.now) scope.old.items }
    ensures { Scopes (all_of known.now) (stated_by known.now at.now scope.old.items statement.now) scope.old.items scope.new.items result }
{
    match statement {
        Stmt::Var { kind, value } => declare_local(
            alloc,
            known,
            at,
            scope,
            kind.get(),
            value.get(),
        ),
        Stmt::SetLocal { local, value } => {
            set_local(alloc, known, at, scope.as_slice(), *local, value.get())
        }
        Stmt::SetVariable { variable, value } => {
            set_variable(alloc, known, at, scope.as_slice(), *variable, value.get())
        }
        Stmt::If {
            condition,
            then,
            other,
        } => if_typed(
            alloc,
            known,
            at,
            scope,
            condition.get(),
            then.get(),
            other.get(),
        ),
        Stmt::While { condition, block } => while_typed(
            alloc,
            known,
            at,
            scope,
            condition.get(),
            block.get(),
        ),
        Stmt::Return => return_stands(at),
        Stmt::ReturnValue { value } => value_returns(
            alloc,
            known,
            at,
            scope.as_slice(),
            value.get(),
        ),
        Stmt::Print { value } => is_printed(alloc, known, at, scope.as_slice(), value.get()),
        Stmt::Free { value } => is_freed(alloc, known, at, scope.as_slice(), value.get()),
        Stmt::Call { call } => call_stands(alloc, known, at, scope.as_slice(), call.get()),
    }
}

// S17: a condition is a boolean; the blocks come before that.
#[cycle(statements)]
fn if_typed(
    alloc: Global,
    known: &Knowledge,
    at: &CodePlace,
    scope: &mut Vec<Kind>,
    condition: &Expr,
    then: &Block,
    other: &Block,
) -> Result<(), TypeFault>
    requires known { IsKnowledge known.now }
    requires at { PlaceStands (all_of known.now) at.now }
    requires scope { AreTypes (all_of known.now) scope.old.items }
    ensures { Scopes (all_of known.now) (if_scope (valued_by known.now at.now scope.old.items condition.now)
        (blocked_by known.now at.now scope.old.items then.now) (blocked_by known.now at.now scope.old.items other.now)
        (scope_at (all_of known.now) scope.old.items)) scope.old.items scope.new.items result }
{
    let tested = value_kind(alloc, known, at, scope.as_slice(), condition)?;
    block_typed(alloc, known, at, scope, then)?;
    block_typed(alloc, known, at, scope, other)?;
    demand(17, is_boolean(tested))
}

#[cycle(statements)]
fn while_typed(
    alloc: Global,
    known: &Knowledge,
    at: &CodePlace,
    scope: &mut Vec<Kind>,
    condition: &Expr,
    block: &Block,
) -> Result<(), TypeFault>
    requires known { IsKnowledge known.now }
    requires at { PlaceStands (all_of known.now) at.now }
    requires scope { AreTypes (all_of known.now) scope.old.items }
    ensures { Scopes (all_of known.now) (while_scope (valued_by known.now at.now scope.old.items condition.now)
        (blocked_by known.now at.now scope.old.items block.now) (scope_at (all_of known.now) scope.old.items)) scope.old.items scope.new.items result }
{
    let tested = value_kind(alloc, known, at, scope.as_slice(), condition)?;
    block_typed(alloc, known, at, scope, block)?;
    demand(17, is_boolean(tested))
}

// S16 and S17: a local is declared where its type is known and the value fits it.
fn declare_local(
    alloc: Global,
    known: &Knowledge,
    at: &CodePlace,
    scope: &mut Vec<Kind>,
    kind: &ValueType,
    value: &Expr,
) -> Result<(), TypeFault>
    requires known { IsKnowledge known.now }
    requires at { PlaceStands (all_of known.now) at.now }
    requires scope { AreTypes (all_of known.now) scope.old.items }
    ensures { Scopes (all_of known.now) (then_scope (valued_by known.now at.now scope.old.items value.now)
        (var_scope (facts_of known.now) (scope_at (all_of known.now) scope.old.items) kind.now)) scope.old.items scope.new.items result }
{
    let given = value_kind(alloc, known, at, scope.as_slice(), value)?;
    match kind_of(known, kind) {
        None => Err(TypeFault::Rule(16)),
        Some(wanted) => {
            if !kind_fits(known, wanted, given) {
                return Err(TypeFault::Rule(17));
            }
            scope.push(wanted)?;
            Ok(())
        }
    }
}
