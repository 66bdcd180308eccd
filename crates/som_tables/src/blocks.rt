//! The blocks of a row: each holds one class's cells, shared with a parent's row or copied from it.

ghost use Rattle.std.specs.Prelude.{◌≡◌, ◌+◌, ◌<◌, ◌≤◌, ◌++◌, None, Some, length, IfOk, OnOk, if◌then◌else◌, ℕ, slice_get};
ghost use Rattle.std.specs.Option.{option_or};
ghost use Rattle.som_tables.specs.Rows.{same_token, replaced_at, AreInherited, HaveRowsBelow, introduced_count};
ghost use Rattle.som_tables.specs.Layout.{Extends, IsBlock, IsLaid, IsStart, start_of, next_cell};

use crate::line::Line;
use crate::place::Place;
use crate::row::{Row, introduced_by, replaces_any};
use crate::starts::first_start;
use crate::{ClassNo, Kind, Token};
use std::alloc::AllocError;

/// The cell at a place of a list.
fn cell_at<C: Copy>(cells: &[C], place: usize) -> C
    requires { place < length cells.now }
    ensures { slice_get cells.now place ≡ Some result }
{
    cells[place]
}

/// Copies so many cells that stand from a place on to the end.
fn copy_cells<C: Copy>(cells: &mut Vec<C>, from: usize, count: usize) -> Result<(), AllocError>
    requires { (p : ℕ) → p < count → from + p < length cells.old.items }
    ensures grown { Extends cells.old.items cells.new.items }
    ensures long { OnOk result (length cells.new.items ≡ length cells.old.items + count) }
    ensures copied { OnOk result ((p : ℕ) → p < count → slice_get cells.new.items (length cells.old.items + p) ≡ slice_get cells.old.items (from + p)) }
{
    for place in 0..count {
        let cell = cell_at(cells.as_slice(), from + place);
        cells.push(cell)?;
    }
    Ok(())
}

/// Puts a cell into the block of a class, which begins there, where it replaces one of the block's.
fn replace_cell<K: Kind>(
    cells: &mut Vec<K::Cell>,
    pair: &(Token<K>, K::Cell),
    class: ClassNo,
    start: usize,
)
    requires { start ≤ length cells.old.items }
    ensures long { length cells.new.items ≡ length cells.old.items }
    ensures kept { (i : ℕ) → i < start → slice_get cells.new.items i ≡ slice_get cells.old.items i }
    ensures each { (p : ℕ) → start + p < length cells.old.items → slice_get cells.new.items (start + p)
        ≡ (if same_token pair.now.0 (class, p) then Some pair.now.1 else slice_get cells.old.items (start + p)) }
{
    if pair.0.class() != class {
        return;
    }
    let place = start + pair.0.place() as usize;
    if place < cells.len() {
        cells[place] = pair.1;
    }
}

/// Puts the cells that replace others into the block of a class, which begins there: of several for one place the first, which is put last.
fn replace_cells<K: Kind>(
    cells: &mut Vec<K::Cell>,
    replaced: &[(Token<K>, K::Cell)],
    class: ClassNo,
    start: usize,
)
    requires { start ≤ length cells.old.items }
    ensures long { length cells.new.items ≡ length cells.old.items }
    ensures kept { (i : ℕ) → i < start → slice_get cells.new.items i ≡ slice_get cells.old.items i }
    ensures each { (p : ℕ) → start + p < length cells.old.items → slice_get cells.new.items (start + p)
        ≡ option_or (replaced_at replaced.now (class, p)) (slice_get cells.old.items (start + p)) }
{
    for at in (0..replaced.len()).rev() {
        replace_cell(cells, &replaced[at], class, start);
    }
}

/// Copies the cells of a block to the end, but for those that are replaced.
fn copy_block<K: Kind>(
    cells: &mut Vec<K::Cell>,
    replaced: &[(Token<K>, K::Cell)],
    class: ClassNo,
    from: usize,
    count: usize,
) -> Result<(), AllocError>
    requires { (p : ℕ) → p < count → from + p < length cells.old.items }
    ensures grown { Extends cells.old.items cells.new.items }
    ensures copied { OnOk result ((p : ℕ) → p < count → slice_get cells.new.items (length cells.old.items + p)
        ≡ option_or (replaced_at replaced.now (class, p)) (slice_get cells.old.items (from + p))) }
{
    let start = cells.len();
    copy_cells(cells, from, count)?;
    replace_cells(cells, replaced, class, start);
    Ok(())
}

/// The block for a class in a row that is made of these: shared, or copied, or none.
fn next_block<K: Kind>(
    rows: &[Option<Row<K>>],
    lines: &[Option<Line>],
    starts: &[Place],
    cells: &mut Vec<K::Cell>,
    row: &Row<K>,
    class: ClassNo,
) -> Result<Place, AllocError>
    requires laid { IsLaid rows.now (start_of lines.now starts.now) cells.old.items }
    requires inherited { AreInherited rows.now row.now.parents row.now.replaced }
    ensures grown { Extends cells.old.items cells.new.items }
    ensures block { IfOk result (λ start. IsBlock cells.new.items start (introduced_count rows.now class)
        (next_cell rows.now row.now.parents row.now.replaced class)) }
{
    let first = first_start(lines, starts, row.parents(), class);
    match first.get() {
        Some(shared) if replaces_any(row.replaced(), class) => {
            let start = Place::at(cells.len())?;
            let count = introduced_by(rows, class);
            copy_block(cells, row.replaced(), class, shared, count)?;
            Ok(start)
        }
        _ => Ok(first),
    }
}

/// The block for a class in its own row or in another's: its own block, or one that it inherits. A class has none for
/// those with higher numbers.
pub(crate) fn block_of<K: Kind>(
    rows: &[Option<Row<K>>],
    lines: &[Option<Line>],
    starts: &[Place],
    cells: &mut Vec<K::Cell>,
    row: &Row<K>,
    class: ClassNo,
    own: Place,
    of: usize,
) -> Result<Place, AllocError>
    requires laid { IsLaid rows.now (start_of lines.now starts.now) cells.old.items }
    requires below { HaveRowsBelow class rows.now row.now.parents }
    requires inherited { AreInherited rows.now row.now.parents row.now.replaced }
    ensures grown { Extends cells.old.items cells.new.items }
    ensures start { IfOk result (λ start. IsStart rows.now class row.now own start of cells.new.items) }
{
    if of == class.number() as usize {
        return Ok(own);
    }
    match u32::try_from(of) {
        Ok(number) => next_block(rows, lines, starts, cells, row, ClassNo::new(number)),
        Err(_) => Ok(Place::none()),
    }
}

/// Lays a class's own cells, where there are some.
pub(crate) fn lay_own<C: Copy>(cells: &mut Vec<C>, own: &[C]) -> Result<Place, AllocError>
    ensures grown { Extends cells.old.items cells.new.items }
    ensures block { IfOk result (λ start. IsBlock cells.new.items start (length own.now) (λ p. slice_get own.now p)) }
{
    if own.is_empty() {
        return Ok(Place::none());
    }
    let start = Place::at(cells.len())?;
    cells.extend_from_slice(own)?;
    Ok(start)
}
