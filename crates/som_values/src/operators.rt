//! What operators make of cells: values, or faults.

ghost use Rattle.som_semantics.specs.State.{Long, Str};
ghost use Rattle.som_semantics.specs.Values.{binary as binary_value, binary_op, unary as unary_value, unary_op};
ghost use Rattle.som_semantics.specs.Values as ops;
ghost use Rattle.som_objects.specs.Objects.{Objects};
ghost use Rattle.som_values.specs.Answers.{Answers};
ghost use Rattle.som_values.specs.Operators.{IsOnNumbers, binary_of};
ghost use Rattle.som_values.specs.Shown.{AreApart, IsSeen, Showing, shown};
ghost use Rattle.som_values.specs.Stored.{IsKept};
ghost use Rattle.std.specs.Prelude.{◌≡◌, ◌++◌, IfOk};

use crate::arithmetic::{difference, negated, product, quotient, remainder, sum};
use crate::operator::{Binary, Unary, binary_operator, unary_operator};
use crate::{Stopped, copy_cell, same, text_of};
use som_model::{Fault, MAX_TEXT, NoMemory};
use som_objects::{Cell, SharedText};
use std::alloc::Global;

/// What an operator of one operand, by its number, makes of a value.
pub fn unary(alloc: Global, number: u8, cell: &Cell) -> Result<Cell, Stopped>
    ensures means { (s : Showing) → Answers s result (unary_value (unary_op number) (shown s cell.now)) }
    ensures seen { (s : Showing) → IsSeen s cell.now → IfOk result (IsSeen s) }
    ensures kept { (os : Objects) → IsKept os cell.now → IfOk result (IsKept os) }
{
    match unary_operator(number) {
        Unary::Minus => minus(cell),
        Unary::Not => not(cell),
        Unary::Length => length(cell),
        Unary::TextOf => text(alloc, cell),
    }
}

fn minus(cell: &Cell) -> Result<Cell, Stopped>
    ensures means { (s : Showing) → Answers s result (unary_value ops.Minus (shown s cell.now)) }
    ensures seen { (s : Showing) → IsSeen s cell.now → IfOk result (IsSeen s) }
    ensures kept { (os : Objects) → IsKept os cell.now → IfOk result (IsKept os) }
{
    match cell {
        Cell::Long(number) => Ok(Cell::Long(negated(*number)?)),
        _ => Ok(copy_cell(cell)?),
    }
}

fn not(cell: &Cell) -> Result<Cell, Stopped>
    ensures means { (s : Showing) → Answers s result (unary_value ops.Not (shown s cell.now)) }
    ensures seen { (s : Showing) → IsSeen s cell.now → IfOk result (IsSeen s) }
    ensures kept { (os : Objects) → IsKept os cell.now → IfOk result (IsKept os) }
{
    match cell {
        Cell::Boolean(truth) => Ok(Cell::Boolean(!*truth)),
        _ => Ok(copy_cell(cell)?),
    }
}

fn length(cell: &Cell) -> Result<Cell, Stopped>
    ensures means { (s : Showing) → Answers s result (unary_value ops.Length (shown s cell.now)) }
    ensures seen { (s : Showing) → IsSeen s cell.now → IfOk result (IsSeen s) }
    ensures kept { (os : Objects) → IsKept os cell.now → IfOk result (IsKept os) }
{
    match cell {
        Cell::Str(text) => match i32::try_from(text.len()) {
            Ok(length) => Ok(Cell::Long(length)),
            Err(_) => Err(Stopped::NoMemory),
        },
        Cell::EmptyStr => Ok(Cell::Long(0)),
        _ => Ok(copy_cell(cell)?),
    }
}

// The text of a value. One that is a text itself is shared.
fn text(alloc: Global, cell: &Cell) -> Result<Cell, Stopped>
    ensures means { (s : Showing) → Answers s result (unary_value ops.TextOf (shown s cell.now)) }
    ensures seen { (s : Showing) → IsSeen s cell.now → IfOk result (IsSeen s) }
    ensures kept { (os : Objects) → IsKept os cell.now → IfOk result (IsKept os) }
{
    match cell {
        Cell::Str(_) | Cell::EmptyStr => Ok(copy_cell(cell)?),
        _ => Ok(Cell::Str(SharedText::from_text(alloc, text_of(alloc, cell)?)?)),
    }
}

/// What an operator of two operands, by its number, makes of values.
pub fn binary(alloc: Global, number: u8, a: &Cell, b: &Cell) -> Result<Cell, Stopped>
    ensures means { (s : Showing) → AreApart s.keys → IsSeen s a.now → IsSeen s b.now → Answers s result (binary_value (binary_op number) (shown s a.now) (shown s b.now)) }
    ensures seen { (s : Showing) → IsSeen s a.now → IfOk result (IsSeen s) }
    ensures kept { (os : Objects) → IsKept os a.now → IfOk result (IsKept os) }
{
    match binary_operator(number) {
        Binary::Equal => Ok(Cell::Boolean(same(a, b))),
        Binary::Unequal => Ok(Cell::Boolean(!same(a, b))),
        Binary::Join => join(alloc, a, b),
        operator => on_numbers(operator, a, b),
    }
}

fn join(alloc: Global, a: &Cell, b: &Cell) -> Result<Cell, Stopped>
    ensures means { (s : Showing) → Answers s result (binary_value ops.Join (shown s a.now) (shown s b.now)) }
    ensures seen { (s : Showing) → IsSeen s a.now → IfOk result (IsSeen s) }
    ensures kept { (os : Objects) → IsKept os a.now → IfOk result (IsKept os) }
{
    match (a, b) {
        (Cell::Str(first), Cell::Str(second)) => {
            join_texts(alloc, first.as_slice(), second.as_slice())
        }
        (Cell::Str(first), Cell::EmptyStr) => join_texts(alloc, first.as_slice(), b""),
        (Cell::EmptyStr, Cell::Str(second)) => join_texts(alloc, b"", second.as_slice()),
        (Cell::EmptyStr, Cell::EmptyStr) => Ok(Cell::EmptyStr),
        _ => Ok(copy_cell(a)?),
    }
}

// A text and then another, where both together aren't too long.
fn join_texts(alloc: Global, a: &[u8], b: &[u8]) -> Result<Cell, Stopped>
    ensures means { (s : Showing) → Answers s result (binary_value ops.Join (Str a.now) (Str b.now)) }
    ensures seen { (s : Showing) → IfOk result (IsSeen s) }
    ensures kept { (os : Objects) → IfOk result (IsKept os) }
{
    let most = MAX_TEXT as usize;
    if a.len() > most || b.len() > most - a.len() {
        return Err(Stopped::Fault(Fault::TextTooLong));
    }
    Ok(Cell::Str(joined(alloc, a, b)?))
}

fn joined(alloc: Global, a: &[u8], b: &[u8]) -> Result<SharedText, NoMemory>
    ensures { IfOk result (λ text. text ≡ a.now ++ b.now) }
{
    let mut bytes = Vec::with_capacity(alloc, a.len() + b.len())?;
    bytes.extend_from_slice(a)?;
    bytes.extend_from_slice(b)?;
    SharedText::from_vec(alloc, bytes)
}

// Every operator but equality and the joining of texts has an answer for two numbers alone.
fn on_numbers(operator: Binary, a: &Cell, b: &Cell) -> Result<Cell, Stopped>
    requires { IsOnNumbers operator }
    ensures means { (s : Showing) → Answers s result (binary_value (binary_of operator) (shown s a.now) (shown s b.now)) }
    ensures seen { (s : Showing) → IsSeen s a.now → IfOk result (IsSeen s) }
    ensures kept { (os : Objects) → IsKept os a.now → IfOk result (IsKept os) }
{
    match (a, b) {
        (Cell::Long(x), Cell::Long(y)) => of_numbers(operator, x, y),
        _ => Ok(copy_cell(a)?),
    }
}

fn of_numbers(operator: Binary, a: &i32, b: &i32) -> Result<Cell, Stopped>
    ensures means { (s : Showing) → Answers s result (binary_value (binary_of operator) (Long a.now) (Long b.now)) }
    ensures seen { (s : Showing) → IfOk result (IsSeen s) }
    ensures kept { (os : Objects) → IfOk result (IsKept os) }
{
    match operator {
        Binary::Sum => Ok(Cell::Long(sum(*a, *b)?)),
        Binary::Difference => Ok(Cell::Long(difference(*a, *b)?)),
        Binary::Product => Ok(Cell::Long(product(*a, *b)?)),
        Binary::Quotient => Ok(Cell::Long(quotient(*a, *b)?)),
        Binary::Remainder => Ok(Cell::Long(remainder(*a, *b)?)),
        Binary::Equal => Ok(Cell::Boolean(*a == *b)),
        Binary::Unequal => Ok(Cell::Boolean(*a != *b)),
        Binary::Below => Ok(Cell::Boolean(*a < *b)),
        Binary::AtMost => Ok(Cell::Boolean(*a <= *b)),
        Binary::Above => Ok(Cell::Boolean(*a > *b)),
        Binary::AtLeast => Ok(Cell::Boolean(*a >= *b)),
        Binary::And | Binary::Or | Binary::Join => Ok(Cell::Long(*a)),
    }
}
