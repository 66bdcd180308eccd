//! How a row is laid page by page, where pages of a parent are shared that differ in nothing.

ghost use Rattle.std.specs.Prelude.{◌≡◌, ◌≢◌, ◌+◌, ◌/◌, ◌<◌, ◌≤◌, [], length, true, None, IfOk, OnOk, OnErr, ℕ, List, Option, slice_get};
ghost use Rattle.som_tables.specs.Rows.{replaced_at, AreInherited, HaveRowsBelow};
ghost use Rattle.som_tables.specs.Layout.{Extends, IsInside, IsLaid, IsLine, IsPage, IsTable, AreInside, ArePages, EndBefore, found_at, line_at, page_start, start_among, start_of};

use crate::blocks::{block_of, lay_own};
use crate::line::{Line, longest, page_of};
use crate::place::Place;
use crate::row::{Row, replaces_on};
use crate::starts::{PAGE, common_page, start_on};
use crate::{ClassNo, Kind};
use std::alloc::{AllocError, Global};

/// Lays the blocks of a row for the classes of a page, and puts where they begin on the empty page.
fn lay_page<K: Kind>(
    rows: &[Option<Row<K>>],
    lines: &[Option<Line>],
    starts: &[Place],
    cells: &mut Vec<K::Cell>,
    row: &Row<K>,
    class: ClassNo,
    own: Place,
    number: usize,
    page: &mut Vec<Place>,
) -> Result<(), AllocError>
    requires laid { IsLaid rows.now (start_of lines.now starts.now) cells.old.items }
    requires below { HaveRowsBelow class rows.now row.now.parents }
    requires inherited { AreInherited rows.now row.now.parents row.now.replaced }
    requires few { number < 67108864 }
    requires empty { page.old.items ≡ [] }
    ensures grown { Extends cells.old.items cells.new.items }
    ensures long { OnOk result (length page.new.items ≡ 64) }
    ensures page { OnOk result (IsPage rows.now class row.now own number (found_at page.new.items) cells.new.items) }
{
    for place in 0..PAGE {
        let of = number * PAGE + place;
        page.push(block_of(rows, lines, starts, cells, row, class, own, of)?)?;
    }
    Ok(())
}

/// Whether a page has just these starts.
fn is_page(starts: &[Place], page: Place, wanted: &[Place]) -> bool
    requires { length wanted.now ≡ 64 }
    ensures { result ≡ true → (p : ℕ) → p < 64 → page_start starts.now page p ≡ found_at wanted.now p }
{
    for (place, start) in wanted.iter().enumerate() {
        if start_on(starts, page, place).get() != start.get() {
            return false;
        }
    }
    true
}

/// The page with these starts: this one, where it has them, or a new one.
fn put_page(starts: &mut Vec<Place>, page: Place, wanted: &[Place]) -> Result<Place, AllocError>
    requires inside { IsInside starts.old.items page }
    requires long { length wanted.now ≡ 64 }
    ensures grown { Extends starts.old.items starts.new.items }
    ensures inside { IfOk result (λ put. IsInside starts.new.items put) }
    ensures page { IfOk result (λ put. (p : ℕ) → p < 64 → page_start starts.new.items put p ≡ found_at wanted.now p) }
{
    if is_page(starts.as_slice(), page, wanted) {
        return Ok(page);
    }
    let new = Place::at(starts.len())?;
    starts.extend_from_slice(wanted)?;
    Ok(new)
}

/// The page of the first of these classes.
fn first_page(lines: &[Option<Line>], parents: &[ClassNo], number: usize) -> Place
    ensures { (starts : List (Option ℕ)) → ((c : ℕ) → AreInside starts (line_at lines.now c)) → IsInside starts result }
{
    match parents.first() {
        Some(parent) => page_of(lines, *parent, number),
        None => Place::none(),
    }
}

/// Makes a page of a row anew, or finds that it is the first parent's.
fn new_page<K: Kind>(
    alloc: Global,
    rows: &[Option<Row<K>>],
    lines: &[Option<Line>],
    starts: &mut Vec<Place>,
    cells: &mut Vec<K::Cell>,
    row: &Row<K>,
    class: ClassNo,
    own: Place,
    number: usize,
) -> Result<Place, AllocError>
    requires table { IsTable rows.now lines.now starts.old.items cells.old.items }
    requires below { HaveRowsBelow class rows.now row.now.parents }
    requires inherited { AreInherited rows.now row.now.parents row.now.replaced }
    requires few { number < 67108864 }
    ensures grown { Extends cells.old.items cells.new.items }
    ensures more { Extends starts.old.items starts.new.items }
    ensures inside { IfOk result (λ page. IsInside starts.new.items page) }
    ensures page { IfOk result (λ page. IsPage rows.now class row.now own number (page_start starts.new.items page) cells.new.items) }
{
    let part = row.on_page(alloc, number)?;
    let mut page = Vec::with_capacity(alloc, PAGE)?;
    lay_page(
        rows,
        lines,
        starts.as_slice(),
        cells,
        &part,
        class,
        own,
        number,
        &mut page,
    )?;
    put_page(
        starts,
        first_page(lines, row.parents(), number),
        page.as_slice(),
    )
}

/// Whether the row of a class has the page of its parents as it is, where they have one alone: no cell of the page's classes is introduced or replaced.
fn is_shared<K: Kind>(row: &Row<K>, class: ClassNo, number: usize) -> bool
    ensures class { result ≡ true → number ≢ class / 64 }
    ensures cells { result ≡ true → (a p : ℕ) → a / 64 ≡ number → replaced_at row.now.replaced (a, p) ≡ None }
{
    number != class.number() as usize / PAGE && !replaces_on(row.replaced(), number)
}

/// A page of a row: the one that its parents have, where they have one alone and no cell of its classes is introduced or replaced, or one that is made anew.
fn next_page<K: Kind>(
    alloc: Global,
    rows: &[Option<Row<K>>],
    lines: &[Option<Line>],
    starts: &mut Vec<Place>,
    cells: &mut Vec<K::Cell>,
    row: &Row<K>,
    class: ClassNo,
    own: Place,
    number: usize,
) -> Result<Place, AllocError>
    requires table { IsTable rows.now lines.now starts.old.items cells.old.items }
    requires below { HaveRowsBelow class rows.now row.now.parents }
    requires inherited { AreInherited rows.now row.now.parents row.now.replaced }
    requires few { number < 67108864 }
    ensures grown { Extends cells.old.items cells.new.items }
    ensures more { Extends starts.old.items starts.new.items }
    ensures inside { IfOk result (λ page. IsInside starts.new.items page) }
    ensures page { IfOk result (λ page. IsPage rows.now class row.now own number (page_start starts.new.items page) cells.new.items) }
{
    match common_page(lines, row.parents(), number) {
        Some(page) if is_shared(row, class, number) => Ok(page),
        _ => new_page(alloc, rows, lines, starts, cells, row, class, own, number),
    }
}

/// Lays the blocks of a row that it inherits, and puts so many of its pages on the empty list.
fn lay_pages<K: Kind>(
    alloc: Global,
    rows: &[Option<Row<K>>],
    lines: &[Option<Line>],
    starts: &mut Vec<Place>,
    cells: &mut Vec<K::Cell>,
    row: &Row<K>,
    class: ClassNo,
    own: Place,
    count: usize,
    pages: &mut Vec<Place>,
) -> Result<(), AllocError>
    requires table { IsTable rows.now lines.now starts.old.items cells.old.items }
    requires below { HaveRowsBelow class rows.now row.now.parents }
    requires inherited { AreInherited rows.now row.now.parents row.now.replaced }
    requires few { count ≤ 67108864 }
    requires empty { pages.old.items ≡ [] }
    ensures grown { Extends cells.old.items cells.new.items }
    ensures more { Extends starts.old.items starts.new.items }
    ensures inside { OnOk result (AreInside starts.new.items pages.new.items) }
    ensures long { OnOk result (length pages.new.items ≡ count) }
    ensures pages { OnOk result (ArePages rows.now class row.now own count pages.new.items starts.new.items cells.new.items) }
{
    for number in 0..count {
        let page = next_page(alloc, rows, lines, starts, cells, row, class, own, number)?;
        pages.push(page)?;
    }
    Ok(())
}

/// How many pages a row has: up to its class's own page, where it introduces cells, and else as many as the longest of its parents' rows.
fn page_count<K: Kind>(lines: &[Option<Line>], row: &Row<K>, class: ClassNo) -> usize
    ensures small { result ≤ 67108864 }
    ensures few { result ≤ class / 64 + 1 }
    ensures own { 0 < length row.now.introduced → result ≡ class / 64 + 1 }
    ensures parents { result < class / 64 + 1 → EndBefore lines.now result row.now.parents }
{
    let own = class.number() as usize / PAGE + 1;
    if !row.introduced().is_empty() {
        return own;
    }
    let inherited = longest(lines, row.parents());
    if inherited < own { inherited } else { own }
}

/// Lays the row of a class, and on an error so much of it as there was memory for.
fn lay_line<K: Kind>(
    alloc: Global,
    rows: &[Option<Row<K>>],
    lines: &[Option<Line>],
    starts: &mut Vec<Place>,
    cells: &mut Vec<K::Cell>,
    row: &Row<K>,
    class: ClassNo,
) -> Result<Line, AllocError>
    requires table { IsTable rows.now lines.now starts.old.items cells.old.items }
    requires below { HaveRowsBelow class rows.now row.now.parents }
    requires inherited { AreInherited rows.now row.now.parents row.now.replaced }
    ensures grown { Extends cells.old.items cells.new.items }
    ensures more { Extends starts.old.items starts.new.items }
    ensures inside { IfOk result (λ line. AreInside starts.new.items line) }
    ensures line { IfOk result (λ line. IsLine rows.now class row.now (start_among line starts.new.items) cells.new.items) }
{
    let own = lay_own(cells, row.introduced())?;
    let count = page_count(lines, row, class);
    let mut pages = Vec::with_capacity(alloc, count)?;
    lay_pages(
        alloc, rows, lines, starts, cells, row, class, own, count, &mut pages,
    )?;
    Ok(Line { pages })
}

/// Lays the row of a class. Where there is no memory the starts and the cells are as they were.
pub(crate) fn lay_row<K: Kind>(
    alloc: Global,
    rows: &[Option<Row<K>>],
    lines: &[Option<Line>],
    starts: &mut Vec<Place>,
    cells: &mut Vec<K::Cell>,
    row: &Row<K>,
    class: ClassNo,
) -> Result<Line, AllocError>
    requires table { IsTable rows.now lines.now starts.old.items cells.old.items }
    requires below { HaveRowsBelow class rows.now row.now.parents }
    requires inherited { AreInherited rows.now row.now.parents row.now.replaced }
    ensures grown { Extends cells.old.items cells.new.items }
    ensures more { Extends starts.old.items starts.new.items }
    ensures inside { IfOk result (λ line. AreInside starts.new.items line) }
    ensures line { IfOk result (λ line. IsLine rows.now class row.now (start_among line starts.new.items) cells.new.items) }
    ensures cells { OnErr result (cells.new.items ≡ cells.old.items) }
    ensures starts { OnErr result (starts.new.items ≡ starts.old.items) }
{
    let cells_before = cells.len();
    let starts_before = starts.len();
    match lay_line(alloc, rows, lines, starts, cells, row, class) {
        Ok(line) => Ok(line),
        Err(error) => {
            cells.truncate(cells_before);
            starts.truncate(starts_before);
            Err(error)
        }
    }
}
