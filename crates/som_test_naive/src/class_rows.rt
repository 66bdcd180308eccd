//! The parents, own bodies and choices of classes that are plain numbers.

ghost use Rattle.som_test_naive.specs.Rows.{body_at, choice_at, parents_of};
ghost use Rattle.std.specs.Prelude.{◌≡◌};

use som_model::List;

// The parents of a class, and none where it has no row.
pub fn parents(rows: &[List<usize>], x: usize) -> &[usize]
    ensures { result.now ≡ parents_of rows.now x }
{
    match rows.get(x) {
        Some(row) => row.as_slice(),
        None => &[],
    }
}

// Whether a class has a body.
pub fn has_own_body(has_body: &[bool], x: usize) -> bool
    ensures { result ≡ body_at has_body.now x }
{
    match has_body.get(x) {
        Some(has) => *has,
        None => false,
    }
}

// The parent that a class chooses, if any.
pub fn choice(choices: &[Option<usize>], x: usize) -> Option<usize>
    ensures { result ≡ choice_at choices.now x }
{
    match choices.get(x) {
        Some(choice) => *choice,
        None => None,
    }
}
