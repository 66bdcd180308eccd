//! Operators by the numbers that code has for them.

ghost use Rattle.som_semantics.specs.Values.{binary_op, unary_op};
ghost use Rattle.som_values.specs.Operators.{binary_of, unary_of};
ghost use Rattle.std.specs.Prelude.{◌≡◌};

/// An operator of one operand.
#[derive(Clone, Copy)]
pub(crate) enum Unary {
    Minus,
    Not,
    Length,
    TextOf,
}

/// An operator of two operands.
#[derive(Clone, Copy)]
pub(crate) enum Binary {
    Sum,
    Difference,
    Product,
    Quotient,
    Remainder,
    Equal,
    Unequal,
    Below,
    AtMost,
    Above,
    AtLeast,
    And,
    Or,
    Join,
}

/// The operator of a number.
pub(crate) fn unary_operator(number: u8) -> Unary
    ensures { unary_of result ≡ unary_op number }
{
    match number {
        0 => Unary::Minus,
        1 => Unary::Not,
        2 => Unary::Length,
        _ => Unary::TextOf,
    }
}

/// The operator of a number.
pub(crate) fn binary_operator(number: u8) -> Binary
    ensures { binary_of result ≡ binary_op number }
{
    match number {
        0 => Binary::Sum,
        1 => Binary::Difference,
        2 => Binary::Product,
        3 => Binary::Quotient,
        4 => Binary::Remainder,
        5 => Binary::Equal,
        6 => Binary::Unequal,
        7 => Binary::Below,
        8 => Binary::AtMost,
        9 => Binary::Above,
        10 => Binary::AtLeast,
        11 => Binary::And,
        12 => Binary::Or,
        _ => Binary::Join,
    }
}
