//! Descent and the class that answers for a method, as the definitions say.

ghost use Rattle.som_model.specs.Ancestors as definitions;
ghost use Rattle.som_model.specs.Ancestors.{anc_within, member};
ghost use Rattle.som_model.specs.Lists.{some};
ghost use Rattle.som_model.specs.Resolution.{impl, impl_within, inherits};
ghost use Rattle.som_test_naive.specs.Rows.{body_at, choice_at, hierarchy_of};
ghost use Rattle.std.specs.Prelude.{◌≡◌, None};

use crate::class_rows::{choice, has_own_body, parents};
use som_model::List;

/// Whether the class `x` is `a`, or some parent of it descends from `a`.
pub fn descends(rows: &[List<usize>], x: usize, a: usize) -> bool
    ensures { result ≡ definitions.descends (hierarchy_of rows.now) x a }
{
    descends_within(rows, x, a, x)
}

// Whether a class descends from another within so many levels.
#[cycle(descent)]
#[tactic(auto, using(crate::proofs::Levels::member_level))]
fn descends_within(rows: &[List<usize>], x: usize, a: usize, levels: usize) -> bool
    ensures { result ≡ member (hierarchy_of rows.now) a (anc_within (hierarchy_of rows.now) levels x) }
{
    a == x || (levels > 0 && some_descends(rows, parents(rows, x), a, levels - 1))
}

#[cycle(descent)]
fn some_descends(rows: &[List<usize>], classes: &[usize], a: usize, levels: usize) -> bool
    ensures { result ≡ some
        (λ p. member (hierarchy_of rows.now) a (anc_within (hierarchy_of rows.now) levels p))
        classes.now }
{
    for class in classes {
        if descends_within(rows, *class, a, levels) {
            return true;
        }
    }
    false
}

/// The class whose body `x` has for a method that `a` introduces: `x` where it has one, else what the
/// parent has that it chooses, or where it chooses none the leftmost that descends from `a`. It takes no memory.
pub fn implementation(
    rows: &[List<usize>],
    has_body: &[bool],
    choices: &[Option<usize>],
    a: usize,
    x: usize,
) -> Option<usize>
    ensures { result ≡ impl (hierarchy_of rows.now) (body_at has_body.now) (choice_at choices.now) a x }
{
    implementation_within(rows, has_body, choices, a, x, x)
}

// The class that has the body within so many levels.
#[cycle(answer)]
#[tactic(auto, using(crate::proofs::Levels::impl_level))]
fn implementation_within(
    rows: &[List<usize>],
    has_body: &[bool],
    choices: &[Option<usize>],
    a: usize,
    x: usize,
    levels: usize,
) -> Option<usize>
    ensures { result ≡ impl_within (hierarchy_of rows.now) (body_at has_body.now) (choice_at choices.now) a levels x }
{
    if has_own_body(has_body, x) {
        return Some(x);
    }
    if levels == 0 {
        return None;
    }
    match choice(choices, x) {
        Some(parent) => implementation_within(rows, has_body, choices, a, parent, levels - 1),
        None => first_implementation(rows, has_body, choices, a, parents(rows, x), levels - 1),
    }
}

// What the first of the classes that descends from `a` and has a body for it has.
#[cycle(answer)]
fn first_implementation(
    rows: &[List<usize>],
    has_body: &[bool],
    choices: &[Option<usize>],
    a: usize,
    classes: &[usize],
    levels: usize,
) -> Option<usize>
    ensures { result ≡ inherits (hierarchy_of rows.now) a
        (impl_within (hierarchy_of rows.now) (body_at has_body.now) (choice_at choices.now) a levels)
        None classes.now }
{
    for class in classes {
        if descends(rows, *class, a) {
            let found = implementation_within(rows, has_body, choices, a, *class, levels);
            if found.is_some() {
                return found;
            }
        }
    }
    None
}
