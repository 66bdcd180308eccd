//! Marks classes along rows of parents, upwards or downwards, in an array of flags by places.

ghost use Rattle.som_compat.specs.Marks.{Above, AreLow, IsReached, Marked, count, some_marked};
ghost use Rattle.som_model.specs.Lists.{Mem};
ghost use Rattle.std.specs.Prelude.{◌≡◌, ◌↔◌, ◌+◌, ◌<◌, ◌≤◌, ◌⊎◌, ℕ, false, length, slice_index_or};

use crate::rows::Row;

/// Marks all from which a marked class descends. The marked classes stand before a place.
pub fn mark_reached(rows: &[Row], end: usize, marks: &mut [bool])
    requires low { AreLow rows.now }
    requires end { end ≤ length rows.now }
    requires long { length rows.now ≤ length marks.old }
    requires before { (k : ℕ) → Marked marks.old k → k < end }
    ensures { (k : ℕ) → Marked marks.new k ↔ IsReached rows.now marks.old k }
{
    let mut place = end;
    while place > 0 {
        place -= 1;
        if marks[place] {
            mark_all(rows[place].parents(), marks);
        }
    }
}

fn mark_all(row: &[u16], marks: &mut [bool])
    requires { (p : ℕ) → Mem p row.now → p < length marks.old }
    ensures { (k : ℕ) → Marked marks.new k ↔ (Marked marks.old k ⊎ Mem k row.now) }
{
    for p in row {
        marks[*p as usize] = true;
    }
}

/// Marks all that descend from one class, among marks of which none is set.
pub fn mark_below(rows: &[Row], top: usize, marks: &mut [bool])
    requires low { AreLow rows.now }
    requires long { length rows.now ≤ length marks.old }
    requires top { top < length rows.now }
    requires clear { (k : ℕ) → Marked marks.old k → ⊥ }
    ensures { (k : ℕ) → k < length rows.now → Marked marks.new k ↔ Above rows.now k top }
{
    marks[top] = true;
    for place in top + 1..rows.len() {
        if is_any_marked(rows[place].parents(), marks) {
            marks[place] = true;
        }
    }
}

fn is_any_marked(row: &[u16], marks: &[bool]) -> bool
    ensures { result ≡ some_marked row.now marks.now }
{
    for p in row {
        if is_marked(marks, *p as usize) {
            return true;
        }
    }
    false
}

pub fn is_marked(marks: &[bool], place: usize) -> bool
    ensures { result ≡ slice_index_or marks.now place false }
{
    place < marks.len() && marks[place]
}

/// How many are marked.
pub fn count_marks(marks: &[bool]) -> usize
    requires { length marks.now ≤ 4100 }
    ensures is { result ≡ count marks.now }
    ensures few { result ≤ length marks.now }
{
    let mut rest = marks;
    let mut number = 0usize;
    while let [is_set, later @ ..] = rest {
        if *is_set {
            number += 1;
        }
        rest = later;
    }
    number
}
