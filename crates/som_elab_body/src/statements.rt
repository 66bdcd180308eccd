//! The checker of blocks, and of statements that hold blocks or declare a local.

ghost use Rattle.som_elab_body.specs.BlockCode.{Blocks};
ghost use Rattle.som_elab_body.specs.Stated.{States, block_in, declared_by, if_by, names_in, stmt_in, value_in, while_by};
ghost use Rattle.som_elab_body.specs.Statements as forms;
ghost use Rattle.som_elab_body.specs.Statements.{elaborated_block};
ghost use Rattle.som_sema_scope.specs.ClassNames.{module_in_scope, type_of as type_named};
ghost use Rattle.som_elab_body.specs.Code.{AreLocals, IsBodyContext, among_at, classes_at, names_at, place_at};
ghost use Rattle.std.specs.Prelude.{◌≡◌, IfOk};

use crate::fault::BodyFault;
use crate::plain_statements::{answer, call, demanded, free, print, set_local, set_variable};
use crate::scoping::declared_kind;
use crate::{BodyContext, Local, TypedExpr, value_expression};
use som_ast::{BlockText, ExprText, StmtText, TypeName};
use som_model::{Block, Boxed, List, Stmt};
use som_sema_scope::type_of;
use som_verify_forms::is_boolean;
use std::alloc::Global;

/// The named block that a text stands for among the locals in scope, or what its first wrong construct breaks. What it
/// declares is in scope to its end alone.
#[cycle(statements)]
pub fn block<'a>(
    alloc: Global,
    context: &BodyContext,
    locals: &mut Vec<Local<'a>>,
    text: &'a BlockText,
) -> Result<Block, BodyFault>
    requires context { IsBodyContext context.now }
    requires locals { AreLocals (classes_at context.now) locals.old.items }
    ensures makes { Blocks (elaborated_block (among_at context.now) (place_at context.now) text.now (names_at (classes_at context.now) locals.old.items)) result }
    ensures scope { IfOk result (λ _. locals.new.items ≡ locals.old.items) }
{
    let before = locals.as_slice().len();
    let mut statements = List::new(alloc);
    for part in text.statements.as_slice() {
        let made = statement(alloc, context, locals, part)?;
        statements.push(made)?;
    }
    locals.truncate(before);
    Ok(Block { statements })
}

// The named statement that a text stands for; what it declares is in scope after it.
#[cycle(statements)]
fn statement<'a>(
    alloc: Global,
    context: &BodyContext,
    locals: &mut Vec<Local<'a>>,
    text: &'a StmtText,
) -> Result<Stmt, BodyFault>
    requires context { IsBodyContext context.now }
    requires locals { AreLocals (classes_at context.now) locals.old.items }
    ensures { States (classes_at context.now) (stmt_in context.now locals.old.items text.now) locals.old.items locals.new.items result }
{
    match text {
        StmtText::Var { name, kind, value } => {
            declare_local(alloc, context, locals, name.text.as_slice(), kind, value)
        }
        StmtText::Set { name, value } => {
            set_local(
                alloc,
                context,
                locals.as_slice(),
                name.text.as_slice(),
                value,
            )
        }
        StmtText::SetVariable { name, value } => {
            set_variable(
                alloc,
                context,
                locals.as_slice(),
                name.text.as_slice(),
                value,
            )
        }
        StmtText::If {
            condition,
            then,
            other,
        } => choice(alloc, context, locals, condition, then, other),
        StmtText::While { condition, block } => repetition(
            alloc, context, locals, condition, block,
        ),
        StmtText::Return { value } => answer(alloc, context, locals.as_slice(), value),
        StmtText::Print { value } => print(alloc, context, locals.as_slice(), value),
        StmtText::Free { value } => free(alloc, context, locals.as_slice(), value),
        StmtText::Call { call: text } => call(alloc, context, locals.as_slice(), text),
    }
}

// The blocks come before the type of the condition.
#[cycle(statements)]
fn choice<'a>(
    alloc: Global,
    context: &BodyContext,
    locals: &mut Vec<Local<'a>>,
    condition: &ExprText,
    then: &'a BlockText,
    other: &'a BlockText,
) -> Result<Stmt, BodyFault>
    requires context { IsBodyContext context.now }
    requires locals { AreLocals (classes_at context.now) locals.old.items }
    ensures { States (classes_at context.now) (if_by (value_in context.now locals.old.items condition.now) (block_in context.now locals.old.items then.now)
        (block_in context.now locals.old.items other.now) (names_in context.now locals.old.items)) locals.old.items locals.new.items result }
{
    let TypedExpr { expr, kind } = value_expression(alloc, context, locals.as_slice(), condition)?;
    let then = block(alloc, context, locals, then)?;
    let other = block(alloc, context, locals, other)?;
    let made = Stmt::If {
        condition: expr,
        then: Boxed::new(alloc, then)?,
        other: Boxed::new(alloc, other)?,
    };
    demanded(17, is_boolean(kind), made)
}

#[cycle(statements)]
fn repetition<'a>(
    alloc: Global,
    context: &BodyContext,
    locals: &mut Vec<Local<'a>>,
    condition: &ExprText,
    body: &'a BlockText,
) -> Result<Stmt, BodyFault>
    requires context { IsBodyContext context.now }
    requires locals { AreLocals (classes_at context.now) locals.old.items }
    ensures { States (classes_at context.now) (while_by (value_in context.now locals.old.items condition.now) (block_in context.now locals.old.items body.now)
        (names_in context.now locals.old.items)) locals.old.items locals.new.items result }
{
    let TypedExpr { expr, kind } = value_expression(alloc, context, locals.as_slice(), condition)?;
    let body = block(alloc, context, locals, body)?;
    let made = Stmt::While {
        condition: expr,
        block: Boxed::new(alloc, body)?,
    };
    demanded(17, is_boolean(kind), made)
}

// A local is in scope after its declaration, and not in its own value.
fn declare_local<'a>(
    alloc: Global,
    context: &BodyContext,
    locals: &mut Vec<Local<'a>>,
    name: &'a [u8],
    kind: &TypeName,
    value: &ExprText,
) -> Result<Stmt, BodyFault>
    requires context { IsBodyContext context.now }
    requires locals { AreLocals (classes_at context.now) locals.old.items }
    ensures { States (classes_at context.now) (declared_by (value_in context.now locals.old.items value.now)
        (forms.declared (among_at context.now) (names_in context.now locals.old.items) name.now (type_named (module_in_scope context.now.scope.now) kind.now))) locals.old.items locals.new.items result }
{
    let before = locals.as_slice();
    let made = value_expression(alloc, context, before, value)?;
    let found = type_of(alloc, context.scope, kind)?;
    let kind = Boxed::new(alloc, found)?;
    let wanted = declared_kind(context, before, name, kind.get(), made.kind)?;
    locals.push(Local { name, kind: wanted })?;
    Ok(Stmt::Var {
        kind,
        value: made.expr,
    })
}
