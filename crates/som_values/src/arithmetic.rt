//! Arithmetic on longs, with the faults of overflow and of division by zero.

ghost use Rattle.som_semantics.specs.State.{Long};
ghost use Rattle.som_semantics.specs.Values.{binary, unary};
ghost use Rattle.som_semantics.specs.Values as ops;
ghost use Rattle.som_values.specs.Answers.{long_tried};
ghost use Rattle.std.specs.Prelude.{◌≡◌};

use som_model::Fault;

pub(crate) fn sum(a: i32, b: i32) -> Result<i32, Fault>
    ensures { long_tried result ≡ binary ops.Sum (Long a) (Long b) }
{
    match a.checked_add(b) {
        Some(number) => Ok(number),
        None => Err(Fault::Overflow),
    }
}

pub(crate) fn difference(a: i32, b: i32) -> Result<i32, Fault>
    ensures { long_tried result ≡ binary ops.Difference (Long a) (Long b) }
{
    match a.checked_sub(b) {
        Some(number) => Ok(number),
        None => Err(Fault::Overflow),
    }
}

pub(crate) fn product(a: i32, b: i32) -> Result<i32, Fault>
    ensures { long_tried result ≡ binary ops.Product (Long a) (Long b) }
{
    match a.checked_mul(b) {
        Some(number) => Ok(number),
        None => Err(Fault::Overflow),
    }
}

/// The quotient, cut towards zero.
pub(crate) fn quotient(a: i32, b: i32) -> Result<i32, Fault>
    ensures { long_tried result ≡ binary ops.Quotient (Long a) (Long b) }
{
    if b == 0 {
        return Err(Fault::DivideByZero);
    }
    match a.checked_div(b) {
        Some(number) => Ok(number),
        None => Err(Fault::Overflow),
    }
}

/// The remainder, with the sign of the dividend.
pub(crate) fn remainder(a: i32, b: i32) -> Result<i32, Fault>
    ensures { long_tried result ≡ binary ops.Remainder (Long a) (Long b) }
{
    if b == 0 {
        return Err(Fault::DivideByZero);
    }
    Ok(a.wrapping_rem(b))
}

pub(crate) fn negated(a: i32) -> Result<i32, Fault>
    ensures { long_tried result ≡ unary ops.Minus (Long a) }
{
    match a.checked_neg() {
        Some(number) => Ok(number),
        None => Err(Fault::Overflow),
    }
}
