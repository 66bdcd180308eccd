//! The checker of statements without blocks: assignment, return, print, free and call.

ghost use Rattle.som_elab_body.specs.Stated.{Keeps, by_value, expr_in, names_in, value_in};
ghost use Rattle.som_elab_body.specs.Statements as forms;
ghost use Rattle.som_elab_body.specs.declared.fault.BodyFault.TheVariants as faults;
ghost use Rattle.som_model.specs.Class.{Class};
ghost use Rattle.som_model.specs.Typing as typing;
ghost use Rattle.som_elab_body.specs.Code.{AreLocals, IsBodyContext, among_at, classes_at, names_at, place_at, typed_at};
ghost use Rattle.som_elab_body.specs.Locals as named;
ghost use Rattle.som_verify_forms.specs.Kinds.{IsType, Stands, kind_at, type_at};
ghost use Rattle.som_verify_forms.specs.Knowing.{facts_of};
ghost use Rattle.std.specs.Prelude.{◌≡◌, ◌<◌, ◌&&◌, not, if◌then◌else◌, length, slice_get, List as Seq, Some, Ok, Err};

use crate::fault::BodyFault;
use crate::{
    BodyContext, Local, TypedExpr, expression, local_of, value_expression, variable_place,
};
use som_ast::ExprText;
use som_model::Stmt;
use som_verify_forms::{Kind, has_text, is_call, is_nothing, is_object, kind_fits, variable_kind};
use std::alloc::Global;

/// A statement of which a rule asks something.
pub fn demanded(rule: u8, holds: bool, statement: Stmt) -> Result<Stmt, BodyFault>
    ensures { result ≡ (if holds then Ok statement else Err (faults.Rule rule)) }
{
    if holds {
        Ok(statement)
    } else {
        Err(BodyFault::Rule(rule))
    }
}

/// A local that is in scope takes a value that fits it.
pub fn set_local(
    alloc: Global,
    context: &BodyContext,
    locals: &[Local],
    name: &[u8],
    value: &ExprText,
) -> Result<Stmt, BodyFault>
    requires context { IsBodyContext context.now }
    requires locals { AreLocals (classes_at context.now) locals.now }
    ensures { Keeps (classes_at context.now) (by_value (value_in context.now locals.now value.now)
        (forms.set_local (among_at context.now) (names_in context.now locals.now) name.now)) locals.now result }
{
    let made = value_expression(alloc, context, locals, value)?;
    local_takes(context, locals, name, made)
}

fn local_takes(
    context: &BodyContext,
    locals: &[Local],
    name: &[u8],
    made: TypedExpr,
) -> Result<Stmt, BodyFault>
    requires context { IsBodyContext context.now }
    requires locals { AreLocals (classes_at context.now) locals.now }
    requires made { Stands (classes_at context.now) made.kind }
    ensures { Keeps (classes_at context.now) (forms.ruled (forms.set_local (among_at context.now) (names_in context.now locals.now) name.now
        (typed_at (classes_at context.now) made))) locals.now result }
{
    let TypedExpr { expr, kind } = made;
    match local_of(locals, name) {
        None => Err(BodyFault::Rule(16)),
        Some(local) => {
            let fits = kind_fits(&context.known, kind_of_local(locals, local as usize), kind);
            demanded(17, fits, Stmt::SetLocal { local, value: expr })
        }
    }
}

fn kind_of_local(locals: &[Local], local: usize) -> Kind
    requires { local < length locals.now }
    ensures is { (cs : Seq Class) → slice_get (named.kinds_of (names_at cs locals.now)) local ≡ Some (type_at cs result) }
    ensures stands { (cs : Seq Class) → AreLocals cs locals.now → IsType cs result }
{
    locals[local].kind
}

/// A variable of the body's class takes a value that fits it.
pub fn set_variable(
    alloc: Global,
    context: &BodyContext,
    locals: &[Local],
    name: &[u8],
    value: &ExprText,
) -> Result<Stmt, BodyFault>
    requires context { IsBodyContext context.now }
    requires locals { AreLocals (classes_at context.now) locals.now }
    ensures { Keeps (classes_at context.now) (by_value (value_in context.now locals.now value.now)
        (forms.set_variable (among_at context.now) (place_at context.now) (names_in context.now locals.now) name.now)) locals.now result }
{
    let made = value_expression(alloc, context, locals, value)?;
    variable_takes(context, locals, name, made)
}

fn variable_takes(
    context: &BodyContext,
    locals: &[Local],
    name: &[u8],
    made: TypedExpr,
) -> Result<Stmt, BodyFault>
    requires context { IsBodyContext context.now }
    requires made { Stands (classes_at context.now) made.kind }
    ensures { Keeps (classes_at context.now) (forms.ruled (forms.set_variable (among_at context.now) (place_at context.now) (names_in context.now locals.now) name.now
        (typed_at (classes_at context.now) made))) locals.now result }
{
    let TypedExpr { expr, kind } = made;
    match variable_place(&context.known, &context.at, name) {
        None => Err(BodyFault::Rule(16)),
        Some(variable) => match variable_kind(&context.known, &context.at, variable as usize) {
            Err(rule) => Err(BodyFault::Rule(rule)),
            Ok(wanted) => {
                let fits = kind_fits(&context.known, wanted, kind);
                demanded(
                    17,
                    fits,
                    Stmt::SetVariable {
                        variable,
                        value: expr,
                    },
                )
            }
        },
    }
}

/// A return, with a value or without.
pub fn answer(
    alloc: Global,
    context: &BodyContext,
    locals: &[Local],
    value: &Option<ExprText>,
) -> Result<Stmt, BodyFault>
    requires context { IsBodyContext context.now }
    requires locals { AreLocals (classes_at context.now) locals.now }
    ensures { Keeps (classes_at context.now) (forms.ruled (forms.returned (among_at context.now) (place_at context.now) (names_in context.now locals.now) value.now)) locals.now result }
{
    match value {
        None => demanded(19, is_nothing(context.at.result), Stmt::Return),
        Some(value) => answer_value(alloc, context, locals, value),
    }
}

fn answer_value(
    alloc: Global,
    context: &BodyContext,
    locals: &[Local],
    value: &ExprText,
) -> Result<Stmt, BodyFault>
    requires context { IsBodyContext context.now }
    requires locals { AreLocals (classes_at context.now) locals.now }
    ensures { Keeps (classes_at context.now) (by_value (value_in context.now locals.now value.now)
        (forms.value_return (among_at context.now) (place_at context.now) (names_in context.now locals.now))) locals.now result }
{
    let TypedExpr { expr, kind } = value_expression(alloc, context, locals, value)?;
    demanded(
        19,
        is_answer(context, kind),
        Stmt::ReturnValue { value: expr },
    )
}

// Whether a value is wanted, and this one fits.
fn is_answer(context: &BodyContext, given: Kind) -> bool
    requires context { IsBodyContext context.now }
    requires given { Stands (classes_at context.now) given }
    ensures { result ≡ (not (typing.is_nothing (typing.Of (type_at (classes_at context.now) context.now.at.result)))
        && typing.fits (facts_of context.now.known) (type_at (classes_at context.now) context.now.at.result) (kind_at (classes_at context.now) given)) }
{
    let wanted = context.at.result;
    match wanted {
        Kind::Void => false,
        _ => kind_fits(&context.known, wanted, given),
    }
}

/// What is printed is a long, a boolean or a string.
pub fn print(
    alloc: Global,
    context: &BodyContext,
    locals: &[Local],
    value: &ExprText,
) -> Result<Stmt, BodyFault>
    requires context { IsBodyContext context.now }
    requires locals { AreLocals (classes_at context.now) locals.now }
    ensures { Keeps (classes_at context.now) (by_value (value_in context.now locals.now value.now) (forms.printed (names_in context.now locals.now))) locals.now result }
{
    let TypedExpr { expr, kind } = value_expression(alloc, context, locals, value)?;
    demanded(17, has_text(kind), Stmt::Print { value: expr })
}

/// What is freed is an object, and not plain nil.
pub fn free(
    alloc: Global,
    context: &BodyContext,
    locals: &[Local],
    value: &ExprText,
) -> Result<Stmt, BodyFault>
    requires context { IsBodyContext context.now }
    requires locals { AreLocals (classes_at context.now) locals.now }
    ensures { Keeps (classes_at context.now) (by_value (value_in context.now locals.now value.now) (forms.freed (names_in context.now locals.now))) locals.now result }
{
    let TypedExpr { expr, kind } = value_expression(alloc, context, locals, value)?;
    demanded(17, is_object(kind), Stmt::Free { value: expr })
}

/// A call stands alone, whatever it answers, and nothing else does.
pub fn call(
    alloc: Global,
    context: &BodyContext,
    locals: &[Local],
    call: &ExprText,
) -> Result<Stmt, BodyFault>
    requires context { IsBodyContext context.now }
    requires locals { AreLocals (classes_at context.now) locals.now }
    ensures { Keeps (classes_at context.now) (by_value (expr_in context.now locals.now call.now) (forms.call_statement (names_in context.now locals.now))) locals.now result }
{
    let TypedExpr { expr, .. } = expression(alloc, context, locals, call)?;
    let stands = is_call(expr.get());
    demanded(20, stands, Stmt::Call { call: expr })
}
