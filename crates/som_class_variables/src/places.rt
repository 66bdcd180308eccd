//! Rows of variables: the place of each variable in a class's objects, and how many they have.

ghost use Rattle.som_class_layout_laws.specs.Places.{IsPlaced};
ghost use Rattle.som_meta.specs.Numbering.{AreNumbered, IsNumbered, key_at};
ghost use Rattle.som_model.specs.Ancestors.{Descends};
ghost use Rattle.som_model.specs.Classes.{ancestors as ancestors_of, hierarchy};
ghost use Rattle.som_class_variables.specs.Placed.{AreCounted, ArePlaces, HaveParentRows, shift_in};
ghost use Rattle.som_class_variables.specs.Variables.{IsVariable, base_scheme, object_variables, own_variables, place_in};
ghost use Rattle.som_tables.specs.Rows.{HasRow, IsDeclared, row_at};
ghost use Rattle.std.specs.Prelude.{◌≡◌, ◌≢◌, ◌<◌, ◌∷◌, ℕ, IfOk, None, OnErr, OnOk, Some, drop, is_some, length, map, slice_get, slice_set};

use crate::bases::{bases_above, own_base};
use crate::object_variables::ObjectVariables;
use crate::own::{know_loaded, own_count};
use crate::start::{place_for, row_start};
use som_class_table::Classes;
use som_meta::Ancestry;
use som_model::NoMemory;
use som_tables::{ClassNo, DToken, DataKind, Table, Token};
use std::alloc::Global;
use std::marker::Model;

/// Rows of the places of variables, of each class that has one how many variables its objects have, and its row's shift. The cells of a row
/// are places less that shift, so that what the row of the class's first parent has serves the class too.
pub struct Places {
    table: Table<DataKind>,
    counts: Vec<u32>,
    shifts: Vec<u32>,
}

impl Drop for Places {
    fn drop(self) {
        let Places {
            table,
            counts,
            shifts,
        } = self;
        drop(table);
        drop(counts);
        drop(shifts);
    }
}

impl Model for Places {
    ghost use Rattle.som_class_variables.specs.Placed.{DataRows, rows_with};

    ghost Value = { DataRows };

    ghost view = { λ p. rows_with p.table p.counts.items p.shifts.items };
}

/// The proper ancestors of a class, in order.
fn above(classes: &Classes, class: ClassNo) -> &[ClassNo]
    requires { IsNumbered classes.now class }
    ensures numbered { AreNumbered classes.now result.now }
    ensures keys { map (key_at classes.now) (class ∷ result.now) ≡ ancestors_of classes.now.classes (key_at classes.now class) }
{
    know_loaded(classes);
    &classes.ancestors(class).as_slice()[1..]
}

/// Gives a class its row: its own variables have the first places, its first parent's row serves for all that an object of that parent has, and the
/// ancestors that are left have other bases than in the rows of its parents. Answers how many variables its objects have, and the row's shift.
fn fill_row(
    alloc: Global,
    classes: &Classes,
    table: &mut Table<DataKind>,
    counts: &[u32],
    shifts: &[u32],
    class: ClassNo,
) -> Result<(u32, u32), NoMemory>
    requires placed { IsPlaced (base_scheme classes.now) (own_variables classes.now.classes) (shift_in shifts.now) table.old }
    requires counts { AreCounted classes.now table.old counts.now }
    requires long { length counts.now ≡ length classes.now.keys }
    requires shifted { length shifts.now ≡ length classes.now.keys }
    requires numbered { IsNumbered classes.now class }
    requires class { IsDeclared table.old class }
    requires parents { HaveParentRows classes.now table.old class }
    ensures placed { IfOk result (λ r. IsPlaced (base_scheme classes.now) (own_variables classes.now.classes) (shift_in (slice_set shifts.now class r.1)) table.new) }
    ensures filled { OnOk result (HasRow table.new class) }
    ensures count { IfOk result (λ r. r.0 ≡ length (object_variables classes.now.classes (key_at classes.now class))) }
    ensures others { (n : ℕ) → n ≢ class → row_at table.new n ≡ row_at table.old n }
    ensures long { length table.new ≡ length table.old }
    ensures err { OnErr result (table.new ≡ table.old) }
{
    know_loaded(classes);
    let count = own_count(classes, class);
    let start = row_start(classes, counts, shifts, class, count)?;
    let own = own_base(alloc, count, start.shift)?;
    let left = left_after(above(classes, class), start.served);
    let (others, end) = bases_above(alloc, classes, start.place, start.shift, left)?;
    let parents = classes.parents(class).as_slice();
    table.fill(alloc, class, parents, own.as_slice(), others.as_slice())?;
    Ok((end, start.shift))
}

/// The classes after so many.
fn left_after(classes: &[ClassNo], count: usize) -> &[ClassNo]
    ensures { result.now ≡ drop count classes.now }
{
    if count <= classes.len() {
        &classes[count..]
    } else {
        &[]
    }
}

/// Notes how many variables the objects of a class have.
fn note_count(counts: &mut Vec<u32>, class: ClassNo, count: u32)
    requires { class < length counts.old.items }
    ensures { counts.new.items ≡ slice_set counts.old.items class count }
{
    counts[class.number() as usize] = count;
}

/// So many classes, of none of which anything is noted.
fn no_counts(alloc: Global, count: u32) -> Result<Vec<u32>, NoMemory>
    ensures { IfOk result (λ counts. length counts.items ≡ count) }
{
    let mut counts = Vec::new(alloc);
    for _number in 0..count {
        counts.push(0)?;
    }
    Ok(counts)
}

/// A table in which so many classes have numbers, and none has a row.
fn without_rows(alloc: Global, count: u32) -> Result<Table<DataKind>, NoMemory>
    ensures long { IfOk result (λ table. length table ≡ count) }
    ensures none { IfOk result (λ table. (n : ℕ) → row_at table n ≡ None) }
{
    let mut table = Table::new(alloc);
    for _number in 0..count {
        table.declare()?;
    }
    Ok(table)
}

impl Places {
    /// A number for each class, and no row.
    pub fn new(alloc: Global, classes: &Classes) -> Result<Places, NoMemory>
        ensures places { IfOk result (λ places. ArePlaces classes.now places) }
        ensures none { IfOk result (λ places. (n : ℕ) → row_at places.rows n ≡ None) }
    {
        let count = classes.count();
        let table = without_rows(alloc, count)?;
        let counts = no_counts(alloc, count)?;
        let shifts = no_counts(alloc, count)?;
        Ok(Places {
            table,
            counts,
            shifts,
        })
    }

    /// Gives a class its row, where its parents have theirs. Where memory runs out all is as it was.
    pub fn fill(&mut self, alloc: Global, classes: &Classes, class: ClassNo) -> Result<(), NoMemory>
        requires places { ArePlaces classes.now self.old }
        requires class { IsDeclared self.old.rows class }
        requires parents { HaveParentRows classes.now self.old.rows class }
        ensures places { ArePlaces classes.now self.new }
        ensures filled { OnOk result (HasRow self.new.rows class) }
        ensures others { (n : ℕ) → n ≢ class → row_at self.new.rows n ≡ row_at self.old.rows n }
        ensures err { OnErr result (self.new ≡ self.old) }
    {
        let (count, shift) = fill_row(
            alloc,
            classes,
            &mut self.table,
            self.counts.as_slice(),
            self.shifts.as_slice(),
            class,
        )?;
        note_count(&mut self.counts, class, count);
        note_count(&mut self.shifts, class, shift);
        Ok(())
    }

    /// Whether a class has a row.
    pub fn has_row(&self, class: ClassNo) -> bool
        ensures { result ≡ is_some (row_at self.now.rows class) }
    {
        self.table.has_row(class)
    }

    /// The token of a variable of a class's own.
    pub fn data_token(&self, classes: &Classes, class: ClassNo, variable: u16) -> DToken
        requires class { IsNumbered classes.now class }
        requires variable { variable < length (own_variables classes.now.classes (key_at classes.now class)) }
        ensures token { result ≡ (class, variable) }
        ensures variable { IsVariable classes.now result }
    {
        Token::new(class, variable)
    }

    /// The place of a variable in the objects of a class that has a row.
    pub fn data_place(&self, classes: &Classes, class: ClassNo, variable: DToken) -> u32
        requires places { ArePlaces classes.now self.now }
        requires row { HasRow self.now.rows class }
        requires variable { IsVariable classes.now variable }
        requires below { Descends (hierarchy classes.now.classes) (key_at classes.now class) (key_at classes.now variable.0) }
        ensures place { result ≡ place_in classes.now.classes (key_at classes.now class) (key_at classes.now variable.0) variable.1 }
        ensures kind { slice_get (object_variables classes.now.classes (key_at classes.now class)) result ≡ slice_get (own_variables classes.now.classes (key_at classes.now variable.0)) variable.1 }
        ensures within { result < length (object_variables classes.now.classes (key_at classes.now class)) }
    {
        know_loaded(classes);
        let cell = self.table.cell(class, Token::new(variable.class(), 0));
        let base = place_for(cell, self.shifts[class.number() as usize]);
        base + u32::from(variable.place())
    }

    /// The types of the variables of the objects of a class that has a row, by their places.
    pub fn variables<'a>(&'a self, classes: &'a Classes, class: ClassNo) -> ObjectVariables<'a>
        requires places { ArePlaces classes.now self.now }
        requires row { HasRow self.now.rows class }
        ensures { result ≡ object_variables classes.now.classes (key_at classes.now class) }
    {
        let count = self.counts.as_slice()[class.number() as usize];
        ObjectVariables::new(classes, classes.ancestors(class).as_slice(), count)
    }
}
