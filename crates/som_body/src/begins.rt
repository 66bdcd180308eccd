//! What begins a line of the grammar, and the operators of each line.

ghost use Rattle.som_body.specs.Grammar.{or_operator as or_of, and_operator as and_of, comparison as comparison_of, sum_operator as sum_of, product_operator as product_of};
ghost use Rattle.som_body.specs.ExpressionInner.{operators_of, operand_of};
ghost use Rattle.som_body.specs.Reading as spec;
ghost use Rattle.std.specs.Prelude.{◌≡◌};

use crate::level::Line;
use crate::operators::{
    ADD, AND, DIVIDE, EQUAL, GREATER, GREATER_EQUAL, JOIN, LESS, LESS_EQUAL, MULTIPLY, NOT_EQUAL,
    OR, REMAINDER, SUBTRACT,
};
use crate::word::is_name;
use som_parse::{Key, Sign, Token};

fn begins_word(key: Key) -> bool
    ensures { result ≡ spec.begins_word key }
{
    match key {
        Key::True
        | Key::False
        | Key::Nil
        | Key::Me
        | Key::Manager
        | Key::SomThis
        | Key::Length
        | Key::TextOf
        | Key::New
        | Key::Class
        | Key::Isa
        | Key::Proxy
        | Key::Host
        | Key::Parent
        | Key::Parents => true,
        _ => is_name(key),
    }
}

fn begins_primary(token: Option<Token>) -> bool
    ensures { result ≡ spec.begins_primary token }
{
    match token {
        Some(Token::Number(_) | Token::Literal(_) | Token::Mark(Sign::Open)) => true,
        Some(Token::Word(key, _)) => begins_word(key),
        _ => false,
    }
}

/// Whether the token in hand begins the line `Postfix`.
pub fn begins_postfix(token: Option<Token>) -> bool
    ensures { result ≡ spec.begins_postfix token }
{
    match token {
        Some(Token::Word(Key::Lookup | Key::Dispatch, _)) => true,
        _ => begins_primary(token),
    }
}

fn begins_unary(token: Option<Token>) -> bool
    ensures { result ≡ spec.begins_unary token }
{
    match token {
        Some(Token::Mark(Sign::Minus)) => true,
        _ => begins_postfix(token),
    }
}

fn begins_neg(token: Option<Token>) -> bool
    ensures { result ≡ spec.begins_neg token }
{
    match token {
        Some(Token::Word(Key::Not, _)) => true,
        _ => begins_unary(token),
    }
}

/// Whether the token in hand begins the line.
pub(crate) fn begins(line: Line, token: Option<Token>) -> bool
    ensures { result ≡ spec.begins line token }
{
    match line {
        Line::Primary => begins_primary(token),
        Line::Postfix | Line::Cast => begins_postfix(token),
        Line::Unary | Line::Prod | Line::Sum | Line::Cmp => begins_unary(token),
        Line::Neg | Line::Conj | Line::Expr => begins_neg(token),
    }
}

fn or_operator(token: Token) -> Option<u8>
    ensures { result ≡ or_of token }
{
    match token {
        Token::Word(Key::Or, _) => Some(OR),
        _ => None,
    }
}

fn and_operator(token: Token) -> Option<u8>
    ensures { result ≡ and_of token }
{
    match token {
        Token::Word(Key::And, _) => Some(AND),
        _ => None,
    }
}

fn comparison(token: Token) -> Option<u8>
    ensures { result ≡ comparison_of token }
{
    match token {
        Token::Mark(Sign::Equal) => Some(EQUAL),
        Token::Mark(Sign::NotEqual) => Some(NOT_EQUAL),
        Token::Mark(Sign::Less) => Some(LESS),
        Token::Mark(Sign::LessEqual) => Some(LESS_EQUAL),
        Token::Mark(Sign::Greater) => Some(GREATER),
        Token::Mark(Sign::GreaterEqual) => Some(GREATER_EQUAL),
        _ => None,
    }
}

fn sum_operator(token: Token) -> Option<u8>
    ensures { result ≡ sum_of token }
{
    match token {
        Token::Mark(Sign::Plus) => Some(ADD),
        Token::Mark(Sign::Minus) => Some(SUBTRACT),
        Token::Mark(Sign::Join) => Some(JOIN),
        _ => None,
    }
}

fn product_operator(token: Token) -> Option<u8>
    ensures { result ≡ product_of token }
{
    match token {
        Token::Mark(Sign::Times) => Some(MULTIPLY),
        Token::Mark(Sign::Divide) => Some(DIVIDE),
        Token::Mark(Sign::Remainder) => Some(REMAINDER),
        _ => None,
    }
}

/// The number of the token in hand as an operator of the line, if it is one.
pub(crate) fn operator(line: Line, token: Option<Token>) -> Option<u8>
    ensures { result ≡ spec.found (operators_of line) token }
{
    let Some(token) = token else {
        return None;
    };
    match line {
        Line::Expr => or_operator(token),
        Line::Conj => and_operator(token),
        Line::Cmp => comparison(token),
        Line::Sum => sum_operator(token),
        Line::Prod => product_operator(token),
        _ => None,
    }
}

/// The line of the right operands of a line's operators.
pub(crate) fn operand(line: Line) -> Line
    ensures { result ≡ operand_of line }
{
    match line {
        Line::Expr => Line::Conj,
        Line::Conj => Line::Neg,
        Line::Cmp => Line::Sum,
        Line::Sum => Line::Prod,
        _ => Line::Unary,
    }
}
