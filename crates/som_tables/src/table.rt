//! The table: classes get rows, and a cell is found by a class and a token in two reads.

ghost use Rattle.std.specs.Prelude.{◌≡◌, ◌<◌, ◌≤◌, ◌+◌, ◌-◌, ◌++◌, ◌∷◌, [], length, take, slice_set, is_some, IfOk, OnOk, OnErr, Some, None, IsNone};
ghost use Rattle.som_tables.specs.Rows.{GivesRow, GivesTokens, AreDistinct, AreInherited, HasToken, HaveRows, HaveRowsBelow, IsDeclared, KeepsOtherRows, KeepsRows, class_with, inherited, introduced_count, row_at};

use crate::line::Line;
use crate::pages::lay_row;
use crate::place::Place;
use crate::row::Row;
use crate::starts::start_in;
use crate::{ClassNo, Kind, Steps, Token};
use std::alloc::{AllocError, Global};
use std::marker::Model;
use std::sync::ledger::Ledger;

/// Classes by their numbers, each with a row or none so far. Contracts see for each number what its row is made of, or nothing.
pub struct Table<K: Kind> {
    rows: Vec<Option<Row<K>>>,
    lines: Vec<Option<Line>>,
    starts: Vec<Place>,
    cells: Vec<K::Cell>,
}

impl<K: Kind> Drop for Table<K> {
    fn drop(self) {
        let Table {
            rows,
            lines,
            starts,
            cells,
        } = self;
        drop(rows);
        drop(lines);
        drop(starts);
        drop(cells);
    }
}

impl<K: Kind> Model for Table<K> {
    ghost use Rattle.std.specs.Prelude.{List, Option};
    ghost use Rattle.som_tables.specs.Rows.{Added};
    ghost use Rattle.som_tables.specs.Layout.{IsTable};

    ghost Value = { List (Option (Added K.Cell)) };

    ghost view = { λ t. t.rows.items };

    ghost invariant = { λ t. IsTable t.rows.items t.lines.items t.starts.items t.cells.items };
}

/// Puts a value at a place.
fn put<T: Drop>(places: &mut Vec<Option<T>>, place: usize, value: T)
    requires { place < length places.old.items }
    ensures { places.new.items ≡ slice_set places.old.items place (Some value) }
{
    places[place] = Some(value);
}

impl<K: Kind> Table<K> {
    /// The table without classes, which takes no memory.
    pub fn new(alloc: Global) -> Table<K>
        ensures { result ≡ [] }
    {
        Table {
            rows: Vec::new(alloc),
            lines: Vec::new(alloc),
            starts: Vec::new(alloc),
            cells: Vec::new(alloc),
        }
    }

    /// Numbers a class without a row, for a few bytes.
    pub fn declare(&mut self) -> Result<ClassNo, AllocError>
        requires few { length self.old < 4294967295 }
        ensures class { IfOk result (λ class. class ≡ length self.old) }
        ensures declared { OnOk result (self.new ≡ self.old ++ None ∷ []) }
        ensures rows { OnOk result (KeepsRows self.old self.new) }
        ensures err { OnErr result (self.new ≡ self.old) }
    {
        let class = ClassNo::new(self.rows.len() as u32);
        self.lines.reserve(1)?;
        self.rows.push(None)?;
        self.lines.push(None)?;
        Ok(class)
    }

    /// Gives a class its row, below its parents, all of which have theirs. Where parents have different cells for a token, the leftmost of them counts.
    /// The row takes four bytes for each 64 class numbers up to its own, or where it introduces no cells up to the last page of a parent's row, 256 bytes for each 64 of them for which its parents' rows don't serve, the introduced cells, and a copy of each inherited block of cells in which one is replaced.
    /// A table with more cells or starts than four bytes number counts as want of memory.
    pub fn fill(
        &mut self,
        alloc: Global,
        class: ClassNo,
        parents: &[ClassNo],
        introduced: &[K::Cell],
        replaced: &[(Token<K>, K::Cell)],
    ) -> Result<(), AllocError>
        requires class { IsDeclared self.old class }
        requires places { length introduced.now ≤ 65535 }
        requires parents { HaveRowsBelow class self.old parents.now }
        requires inherited { AreInherited self.old parents.now replaced.now }
        requires distinct { AreDistinct replaced.now }

        ensures filled { OnOk result (self.new ≡ slice_set self.old class (Some (class_with parents.now introduced.now replaced.now))) }
        ensures others { OnOk result (KeepsOtherRows self.old self.new class) }
        ensures row { OnOk result (GivesRow self.old self.new class (class_with parents.now introduced.now replaced.now)) }
        ensures tokens { OnOk result (GivesTokens self.old self.new class (class_with parents.now introduced.now replaced.now)) }
        ensures err { OnErr result (self.new ≡ self.old) }
    {
        let row = Row::new(alloc, parents, introduced, replaced)?;
        let line = lay_row(
            alloc,
            self.rows.as_slice(),
            self.lines.as_slice(),
            &mut self.starts,
            &mut self.cells,
            &row,
            class,
        )?;
        let place = class.number() as usize;
        put(&mut self.rows, place, row);
        put(&mut self.lines, place, line);
        Ok(())
    }

    /// Takes back the number of the class that was declared last.
    fn undeclare(&mut self)
        requires { IsNone (row_at self.old (length self.old - 1)) }
        ensures { self.new ≡ take (length self.old - 1) self.old }
    {
        self.rows.pop();
        self.lines.pop();
    }

    /// Numbers a class and gives it its row, as `declare` and `fill` do, or leaves both.
    pub fn add_class(
        &mut self,
        alloc: Global,
        parents: &[ClassNo],
        introduced: &[K::Cell],
        replaced: &[(Token<K>, K::Cell)],
    ) -> Result<ClassNo, AllocError>
        requires few { length self.old < 4294967295 }
        requires places { length introduced.now ≤ 65535 }
        requires parents { HaveRows self.old parents.now }
        requires inherited { AreInherited self.old parents.now replaced.now }
        requires distinct { AreDistinct replaced.now }

        ensures class { IfOk result (λ class. class ≡ length self.old) }
        ensures added { OnOk result (self.new ≡ self.old ++ Some (class_with parents.now introduced.now replaced.now) ∷ []) }
        ensures earlier { OnOk result (KeepsRows self.old self.new) }
        ensures row { OnOk result (GivesRow self.old self.new (length self.old) (class_with parents.now introduced.now replaced.now)) }
        ensures tokens { OnOk result (GivesTokens self.old self.new (length self.old) (class_with parents.now introduced.now replaced.now)) }
        ensures err { OnErr result (self.new ≡ self.old) }
    {
        let class = self.declare()?;
        match self.fill(alloc, class, parents, introduced, replaced) {
            Ok(()) => Ok(class),
            Err(error) => {
                self.undeclare();
                Err(error)
            }
        }
    }

    /// Whether a class has a row. A class that isn't numbered has none.
    pub fn has_row(&self, class: ClassNo) -> bool
        ensures { result ≡ is_some (row_at self.now class) }
    {
        match self.rows.get(class.number() as usize) {
            Some(row) => row.is_some(),
            None => false,
        }
    }

    /// The token of the cell that a class introduced at a place. A class without a row introduced none.
    pub fn token(&self, class: ClassNo, place: u16) -> Token<K>
        requires { place < introduced_count self.now class }
        ensures { result ≡ (class, place) }
    {
        Token::new(class, place)
    }

    /// The cell of a token in the row of a class, by two reads, each of which is a step: where its block begins, and the cell.
    pub fn resolve<L: Ledger>(
        &self,
        class: ClassNo,
        token: Token<K>,
        steps: &mut Steps<L>,
    ) -> K::Cell
        requires { HasToken self.now class token }
        ensures cell { Some result ≡ inherited self.now class token }
        ensures cost { steps.new ≡ steps.old + 2 }
    {
        let lines = self.lines.as_slice();
        let starts = self.starts.as_slice();
        match steps.look_up(lines, starts, class, token.class()).get() {
            Some(start) => steps.read(self.cells.as_slice(), start + token.place() as usize),
            None => unreachable!(),
        }
    }

    /// The cell that `resolve` gives, with no step counted.
    pub fn cell(&self, class: ClassNo, token: Token<K>) -> K::Cell
        requires { HasToken self.now class token }
        ensures { Some result ≡ inherited self.now class token }
    {
        let lines = self.lines.as_slice();
        let starts = self.starts.as_slice();
        match start_in(lines, starts, class, token.class()).get() {
            Some(start) => self.cells[start + token.place() as usize],
            None => unreachable!(),
        }
    }
}
