//! The expressions and statements of the client's body: zero values, and the call of the told method.

ghost use Rattle.som_model.specs.declared.syntax.Expr.TheVariants as exprs;
ghost use Rattle.som_witness.specs.Program.{call_on_c, zero_value, zero_values, zero_values_with};
ghost use Rattle.std.specs.Prelude.{◌≡◌, ◌∷◌, [], IfOk, if◌then◌else◌};

use som_model::{Boxed, Expr, List, MethodRef, NoMemory, Stmt, Text, ValueType};
use std::alloc::Global;

/// The value of a type that a new variable has, as a literal.
fn zero_value(alloc: Global, kind: &ValueType) -> Expr
    ensures { result ≡ zero_value kind.now }
{
    match kind {
        ValueType::Void => Expr::Nil,
        ValueType::Long => Expr::Long(0),
        ValueType::Boolean => Expr::Boolean(false),
        ValueType::Str => Expr::Str(Text::from_vec(Vec::new(alloc))),
        ValueType::Class(_) => Expr::Nil,
    }
}

/// A zero value for each of these types.
pub fn zero_values(alloc: Global, params: &[ValueType]) -> Result<List<Expr>, NoMemory>
    ensures { IfOk result (λ values. values ≡ zero_values params.now) }
{
    let mut values = List::new(alloc);
    for kind in params {
        values.push(zero_value(alloc, kind))?;
    }
    Ok(values)
}

// The parameter x at its place, and else a zero value.
fn value_at(alloc: Global, is_x: bool, kind: &ValueType) -> Expr
    ensures { result ≡ (if is_x then exprs.Local 1 else zero_value kind.now) }
{
    if is_x {
        Expr::Local(1)
    } else {
        zero_value(alloc, kind)
    }
}

/// Zero values, but for the parameter x at this place.
pub fn zero_values_with(
    alloc: Global,
    place: u16,
    params: &[ValueType],
) -> Result<List<Expr>, NoMemory>
    ensures { IfOk result (λ values. values ≡ zero_values_with place params.now) }
{
    let mut values = List::new(alloc);
    for (at, kind) in params.iter().enumerate() {
        values.push(value_at(alloc, at == place as usize, kind))?;
    }
    Ok(values)
}

/// The call of the method on the first parameter, by its slot.
pub fn call_on_c(
    alloc: Global,
    method: &MethodRef,
    args: List<Expr>,
) -> Result<Boxed<Expr>, NoMemory>
    ensures { IfOk result (λ call. call ≡ call_on_c method.now args) }
{
    let receiver = Boxed::new(alloc, Expr::Local(0))?;
    let method = method.copy_boxed(alloc)?;
    Boxed::new(
        alloc,
        Expr::OffsetCall {
            method,
            receiver,
            args,
        },
    )
}

/// A body of one statement.
pub fn only(alloc: Global, statement: Stmt) -> Result<List<Stmt>, NoMemory>
    ensures { IfOk result (λ body. body ≡ statement ∷ []) }
{
    let mut body = List::new(alloc);
    body.push(statement)?;
    Ok(body)
}
