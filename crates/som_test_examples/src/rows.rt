//! The rows of the sample: ancestors, introduced methods and own bodies of eleven classes.

ghost use Rattle.std.specs.Prelude.{◌≡◌, ◌++◌, ◌∷◌, [], IfOk, OnOk};
ghost use Rattle.som_test_examples.specs.Sample.{ancestor_rows, body_rows, token_rows};

use som_model::{List, NoMemory};
use som_tables::{ClassNo, MToken, Token};
use std::alloc::Global;

/// Puts a row of these classes at the end.
fn add_classes(
    alloc: Global,
    rows: &mut List<List<ClassNo>>,
    numbers: &[u32],
) -> Result<(), NoMemory>
    ensures { OnOk result (rows.new ≡ rows.old ++ numbers.now ∷ []) }
{
    let mut row = List::new(alloc);
    for number in numbers {
        row.push(ClassNo::new(*number))?;
    }
    rows.push(row)?;
    Ok(())
}

/// Puts a row of these tokens at the end.
fn add_tokens(
    alloc: Global,
    rows: &mut List<List<MToken>>,
    tokens: &[(u32, u16)],
) -> Result<(), NoMemory>
    ensures { OnOk result (rows.new ≡ rows.old ++ tokens.now ∷ []) }
{
    let mut row = List::new(alloc);
    for token in tokens {
        row.push(Token::new(ClassNo::new(token.0), token.1))?;
    }
    rows.push(row)?;
    Ok(())
}

/// The ancestors of each class.
pub(crate) fn ancestors(alloc: Global) -> Result<List<List<ClassNo>>, NoMemory>
    ensures { IfOk result (λ rows. rows ≡ ancestor_rows) }
{
    let mut rows = List::new(alloc);
    add_classes(alloc, &mut rows, &[0])?;
    add_classes(alloc, &mut rows, &[1, 0])?;
    add_classes(alloc, &mut rows, &[2, 1, 0])?;
    add_classes(alloc, &mut rows, &[3, 2, 1, 0])?;
    add_classes(alloc, &mut rows, &[4, 2, 1, 0])?;
    add_classes(alloc, &mut rows, &[5, 0])?;
    add_classes(alloc, &mut rows, &[6, 0])?;
    add_classes(alloc, &mut rows, &[7, 5, 0, 6])?;
    add_classes(alloc, &mut rows, &[8, 5, 0, 6])?;
    add_classes(alloc, &mut rows, &[9, 7, 5, 0, 6, 8])?;
    add_classes(alloc, &mut rows, &[10, 3, 2, 1, 0, 4])?;
    Ok(rows)
}

/// The methods that each class introduces.
pub(crate) fn introduced(alloc: Global) -> Result<List<List<MToken>>, NoMemory>
    ensures { IfOk result (λ rows. rows ≡ token_rows) }
{
    let mut rows = List::new(alloc);
    add_tokens(alloc, &mut rows, &[])?;
    add_tokens(alloc, &mut rows, &[])?;
    add_tokens(alloc, &mut rows, &[(2, 0), (2, 1)])?;
    add_tokens(alloc, &mut rows, &[])?;
    add_tokens(alloc, &mut rows, &[])?;
    add_tokens(alloc, &mut rows, &[(5, 0)])?;
    add_tokens(alloc, &mut rows, &[(6, 0)])?;
    add_tokens(alloc, &mut rows, &[])?;
    add_tokens(alloc, &mut rows, &[(8, 0)])?;
    add_tokens(alloc, &mut rows, &[])?;
    add_tokens(alloc, &mut rows, &[])?;
    Ok(rows)
}

/// The methods that each class has a body of its own for.
pub(crate) fn bodies(alloc: Global) -> Result<List<List<MToken>>, NoMemory>
    ensures { IfOk result (λ rows. rows ≡ body_rows) }
{
    let mut rows = List::new(alloc);
    add_tokens(alloc, &mut rows, &[])?;
    add_tokens(alloc, &mut rows, &[])?;
    add_tokens(alloc, &mut rows, &[(2, 0), (2, 1)])?;
    add_tokens(alloc, &mut rows, &[(2, 0)])?;
    add_tokens(alloc, &mut rows, &[(2, 1)])?;
    add_tokens(alloc, &mut rows, &[(5, 0)])?;
    add_tokens(alloc, &mut rows, &[(6, 0)])?;
    add_tokens(alloc, &mut rows, &[])?;
    add_tokens(alloc, &mut rows, &[(8, 0)])?;
    add_tokens(alloc, &mut rows, &[])?;
    add_tokens(alloc, &mut rows, &[])?;
    Ok(rows)
}
