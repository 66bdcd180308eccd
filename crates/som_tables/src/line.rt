//! The pages of a class's row, in which the start of each block is looked up.

ghost use Rattle.std.specs.Prelude.{◌≡◌, ◌≤◌, length};
ghost use Rattle.som_tables.specs.Layout.{EndBefore, found_at, line_at};

use crate::ClassNo;
use crate::place::Place;
use std::marker::Model;

/// Where the pages of a row begin, one for each 64 class numbers up to the last for which the row has a page. There is none where the row has no cells of these classes.
#[derive(Drop)]
pub(crate) struct Line {
    pub(crate) pages: Vec<Place>,
}

impl Model for Line {
    ghost use Rattle.std.specs.Prelude.{ℕ, List, Option};

    ghost Value = { List (Option ℕ) };

    ghost view = { λ l. l.pages.items };
}

impl Line {
    /// Where a page begins.
    fn page(&self, number: usize) -> Place
        ensures { result ≡ found_at self.now number }
    {
        match self.pages.get(number) {
            Some(page) => *page,
            None => Place::none(),
        }
    }
}

/// Where a page of the row of a class begins: nowhere, where the class has no row.
pub(crate) fn page_of(lines: &[Option<Line>], class: ClassNo, number: usize) -> Place
    ensures { result ≡ found_at (line_at lines.now class) number }
{
    match lines.get(class.number() as usize) {
        Some(Some(line)) => line.page(number),
        _ => Place::none(),
    }
}

/// How many pages the row of a class has, those between that are none with them.
fn pages_in(lines: &[Option<Line>], class: ClassNo) -> usize
    ensures { result ≡ length (line_at lines.now class) }
{
    match lines.get(class.number() as usize) {
        Some(Some(line)) => line.pages.len(),
        _ => 0,
    }
}

/// The larger of this many pages and those of the row of a class.
fn longer(lines: &[Option<Line>], most: usize, class: ClassNo) -> usize
    ensures most { most ≤ result }
    ensures class { length (line_at lines.now class) ≤ result }
{
    let count = pages_in(lines, class);
    if most < count { count } else { most }
}

/// How many pages the longest row of these classes has.
pub(crate) fn longest(lines: &[Option<Line>], classes: &[ClassNo]) -> usize
    ensures { EndBefore lines.now result classes.now }
{
    let mut most = 0;
    for class in classes {
        most = longer(lines, most, *class);
    }
    most
}
