//! Ancestors, descent and bodies in a diamond of four classes.

use crate::memory::out_of_memory;
use som_model::{List, NoMemory};
use som_test_naive::{ancestors, descends, implementation};
use std::alloc::Global;
use std::test::Fail;

// The parents of each class, by numbers: D, B and C over A.
const DIAMOND: [&[usize]; 4] = [&[], &[0], &[0], &[1, 2]];

fn rows(alloc: Global) -> Result<Vec<List<usize>>, NoMemory> {
    let mut rows = Vec::new(alloc);
    for row in &DIAMOND {
        rows.push(List::from_slice(alloc, *row)?)?;
    }
    Ok(rows)
}

#[test]
fn ancestors_go_from_left_to_right(rt: HostRuntime) -> Result<(), Fail> {
    let rows = rows(rt.alloc()).map_err(out_of_memory)?;
    let found = ancestors(rt.alloc(), rows.as_slice(), 3).map_err(out_of_memory)?;
    assert!(rt; found.as_slice() == [3, 1, 0, 2].as_slice());
    Ok(())
}

#[test]
fn descent_and_bodies_are_found(rt: HostRuntime) -> Result<(), Fail> {
    let rows = rows(rt.alloc()).map_err(out_of_memory)?;
    let rows = rows.as_slice();
    assert!(rt; descends(rows, 3, 2));
    assert!(rt; !descends(rows, 2, 1));
    let none = [None; 4];
    let both = implementation(rows, &[true, true, true, false], &none, 0, 3);
    assert!(rt; both == Some(1));
    let left = implementation(rows, &[true, false, true, false], &none, 0, 3);
    assert!(rt; left == Some(0));
    let right = [None, None, None, Some(2)];
    let chosen = implementation(rows, &[true, true, true, false], &right, 0, 3);
    assert!(rt; chosen == Some(2));
    Ok(())
}
