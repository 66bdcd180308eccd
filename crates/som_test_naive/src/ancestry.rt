//! The ancestors of a class, as the definition lists them.

ghost use Rattle.som_model.specs.Ancestors.{anc, anc_within};
ghost use Rattle.som_model.specs.Lists.{firsts, joined, without};
ghost use Rattle.som_test_naive.specs.Rows.{hierarchy_of};
ghost use Rattle.std.specs.Prelude.{◌≡◌, ◌==◌, ◌∷◌, map, IfOk};

use crate::class_rows::parents;
use som_model::{List, NoMemory};
use std::alloc::Global;

/// A class, and then the ancestors of its parents from left to right, first occurrences kept.
pub fn ancestors(alloc: Global, rows: &[List<usize>], x: usize) -> Result<List<usize>, NoMemory>
    ensures { IfOk result (λ list. list ≡ anc (hierarchy_of rows.now) x) }
{
    ancestors_within(alloc, rows, x, x)
}

// The ancestors up to so many levels.
#[cycle(walk)]
#[tactic(auto, using(crate::proofs::Levels::anc_level))]
fn ancestors_within(
    alloc: Global,
    rows: &[List<usize>],
    x: usize,
    levels: usize,
) -> Result<List<usize>, NoMemory>
    ensures { IfOk result (λ list. list ≡ anc_within (hierarchy_of rows.now) levels x) }
{
    let mut all = List::new(alloc);
    all.push(x)?;
    if levels == 0 {
        return Ok(all);
    }
    let rest = ancestors_of_all(alloc, rows, parents(rows, x), levels - 1)?;
    all.extend_from_slice(rest.as_slice())?;
    first_occurrences(alloc, all.as_slice())
}

// The ancestors of each of the classes, one list after the other.
#[cycle(walk)]
fn ancestors_of_all(
    alloc: Global,
    rows: &[List<usize>],
    classes: &[usize],
    levels: usize,
) -> Result<List<usize>, NoMemory>
    ensures { IfOk result (λ list.
        list ≡ joined (map (anc_within (hierarchy_of rows.now) levels) classes.now)) }
{
    let mut all = List::new(alloc);
    for class in classes {
        let more = ancestors_within(alloc, rows, *class, levels)?;
        all.extend_from_slice(more.as_slice())?;
    }
    Ok(all)
}

fn first_occurrences(alloc: Global, classes: &[usize]) -> Result<List<usize>, NoMemory>
    ensures { IfOk result (λ list. list ≡ firsts ◌==◌ classes.now) }
{
    match classes {
        [] => Ok(List::new(alloc)),
        [first, rest @ ..] => {
            let later = first_occurrences(alloc, rest)?;
            before_others(alloc, *first, later.as_slice())
        }
    }
}

// The class, and then those of the list that it isn't.
fn before_others(alloc: Global, x: usize, classes: &[usize]) -> Result<List<usize>, NoMemory>
    ensures { IfOk result (λ list. list ≡ x ∷ without (λ y. x == y) classes.now) }
{
    let mut list = List::new(alloc);
    list.push(x)?;
    for class in classes {
        if x != *class {
            list.push(*class)?;
        }
    }
    Ok(list)
}
