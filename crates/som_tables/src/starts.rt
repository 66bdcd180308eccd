//! Pages of starts: where the blocks of 64 classes begin, looked up and compared among parents.

ghost use Rattle.std.specs.Prelude.{◌≡◌, ◌<◌, ◌/◌, ◌%◌, ℕ, List, Option, IfSome};
ghost use Rattle.std.specs.Option.{option_or};
ghost use Rattle.som_tables.specs.Rows.{first_some};
ghost use Rattle.som_tables.specs.Layout.{AreInside, IsInside, found_at, line_at, page_start, start_of, first_start_of};

use crate::ClassNo;
use crate::line::{Line, page_of};
use crate::place::Place;

/// How many classes a page is for.
pub(crate) const PAGE: usize = 64;

/// What a page has at a place.
pub(crate) fn start_on(starts: &[Place], page: Place, place: usize) -> Place
    requires { place < 64 }
    ensures { result ≡ page_start starts.now page place }
{
    match page.get() {
        Some(from) => match starts.get(from + place) {
            Some(start) => *start,
            None => Place::none(),
        },
        None => Place::none(),
    }
}

/// Where the block for class `of` in the row of `class` begins, by one look-up.
pub(crate) fn start_in(
    lines: &[Option<Line>],
    starts: &[Place],
    class: ClassNo,
    of: ClassNo,
) -> Place
    ensures { result ≡ start_of lines.now starts.now class of }
{
    let number = of.number() as usize;
    start_on(starts, page_of(lines, class, number / PAGE), number % PAGE)
}

/// Where the first block for class `of` among the rows of these parents begins.
pub(crate) fn first_start(
    lines: &[Option<Line>],
    starts: &[Place],
    parents: &[ClassNo],
    of: ClassNo,
) -> Place
    ensures { result ≡ first_start_of lines.now starts.now parents.now of }
{
    for parent in parents {
        let start = start_in(lines, starts, *parent, of);
        if start.get().is_some() {
            return start;
        }
    }
    Place::none()
}

/// One of two pages where the other has nothing to add to it.
fn joined(first: Place, second: Place) -> Option<Place>
    ensures inside { IfSome result (λ page. (starts : List (Option ℕ)) → IsInside starts first → IsInside starts second → IsInside starts page) }
    ensures page { IfSome result (λ page. (starts : List (Option ℕ)) (p : ℕ) →
        option_or (page_start starts first p) (page_start starts second p) ≡ page_start starts page p) }
{
    match (first.get(), second.get()) {
        (_, None) => Some(first),
        (None, _) => Some(second),
        (Some(left), Some(right)) if left == right => Some(first),
        _ => None,
    }
}

/// The page that each of these parents has, if it has one, where they have no two different ones.
pub(crate) fn common_page(
    lines: &[Option<Line>],
    parents: &[ClassNo],
    number: usize,
) -> Option<Place>
    ensures inside { IfSome result (λ page. (starts : List (Option ℕ)) → ((c : ℕ) → AreInside starts (line_at lines.now c)) → IsInside starts page) }
    ensures page { IfSome result (λ page. (starts : List (Option ℕ)) (p : ℕ) →
        first_some (λ q. page_start starts (found_at (line_at lines.now q) number) p) parents.now ≡ page_start starts page p) }
{
    let mut common = Place::none();
    for parent in parents {
        common = joined(common, page_of(lines, *parent, number))?;
    }
    Some(common)
}
