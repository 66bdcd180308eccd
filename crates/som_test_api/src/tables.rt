//! A class table in which a class replaces one of its parent's cells.

ghost use Rattle.std.specs.Prelude.{◌≡◌, []};

use som_tables::{MethodKind, Table};
use std::alloc::{AllocError, Global};

// Whether a class that replaces the first of its parent's two cells has the other one too.
#[tactic(auto, unfolding(som_tables::specs::Rows::inherited))]
fn is_replaced(alloc: Global, table: &mut Table<MethodKind>) -> Result<bool, AllocError>
    requires { table.old ≡ [] }
{
    let top = table.add_class(alloc, &[], &[10, 20], &[])?;
    let first = table.token(top, 0);
    let second = table.token(top, 1);
    let below = table.add_class(alloc, &[top], &[], &[(first, 11)])?;
    Ok(table.cell(below, first) == 11 && table.cell(below, second) == 20)
}

#[test]
fn a_class_is_added_with_its_row(rt: HostRuntime) {
    let mut table = Table::new(rt.alloc());
    assert!(rt; matches!(is_replaced(rt.alloc(), &mut table), Ok(true)));
}
