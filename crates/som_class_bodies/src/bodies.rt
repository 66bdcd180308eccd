//! Rows of methods: the number of the body that answers, for each class and method.

ghost use Rattle.som_class_bodies.specs.Filling.{IsDraft, IsFilling};
ghost use Rattle.som_class_bodies.specs.Bodies.{AreBodies, HaveParentRows, IsAnswer, rows_with};
ghost use Rattle.som_class_bodies.specs.Adding.{HaveChosen};
ghost use Rattle.som_class_table.specs.Loaded.{AreLoaded};
ghost use Rattle.som_meta.specs.Numbering.{IsNumbered, IsToken, key_at, method_at};
ghost use Rattle.som_model.specs.Ancestors.{Descends};
ghost use Rattle.som_model.specs.Classes.{hierarchy};
ghost use Rattle.som_model.specs.Lists.{Mem};
ghost use Rattle.som_tables.specs.Layout.{Extends};
ghost use Rattle.som_tables.specs.Rows.{HasRow, IsDeclared, row_at};
ghost use Rattle.std.specs.Prelude.{◌≡◌, ◌≢◌, ◌⊎◌, ◌+◌, ◌<◌, ◌++◌, ℕ, None, Some, IfOk, List as Seq, OnErr, OnOk, is_some, length, map, slice_get, take};

use crate::adding::{add_cells, numbers};
use crate::body::BodyAt;
use crate::replaced::{other_bodies, own_bodies, selected_cells};
use som_class_table::Classes;
use som_model::{List, NoMemory};
use som_tables::{ClassNo, MToken, MethodKind, Steps, Table};
use std::alloc::Global;
use std::marker::Model;
use std::mem;
use std::sync::ledger::Ledger;

/// The rows of the classes of a run: for each method the number of the body that a class has for it. A class has a row from when it is filled.
pub struct Bodies {
    table: Table<MethodKind>,
    all: List<BodyAt>,
}

impl Drop for Bodies {
    fn drop(self) {
        let Bodies { table, all } = self;
        drop(table);
        drop(all);
    }
}

impl Model for Bodies {
    ghost use Rattle.som_class_bodies.specs.Bodies.{MethodRows, rows_with};

    ghost Value = { MethodRows };

    ghost view = { λ b. rows_with b.table b.all };
}

// That the classes can be loaded, which their number tells a proof.
fn know_loaded(classes: &Classes)
    ensures { AreLoaded classes.now }
{
    let _count = classes.count();
}

/// A table with a number for each class, and no row.
fn without_rows(alloc: Global, count: u32) -> Result<Table<MethodKind>, NoMemory>
    ensures each { IfOk result (λ table. length table ≡ count) }
    ensures none { IfOk result (λ table. (n : ℕ) → row_at table n ≡ None) }
{
    let mut table = Table::new(alloc);
    for _number in 0..count {
        table.declare()?;
    }
    Ok(table)
}

/// The bodies of a class for the methods that it introduces and for those of other classes, and the cells of what it selects.
#[derive(Drop)]
struct Draft {
    own: List<BodyAt>,
    others: List<BodyAt>,
    selected: List<(MToken, u64)>,
}

/// What a class has, before anything is added for it.
fn drafted(
    alloc: Global,
    classes: &Classes,
    table: &Table<MethodKind>,
    class: ClassNo,
) -> Result<Draft, NoMemory>
    requires loaded { AreLoaded classes.now }
    requires numbered { IsNumbered classes.now class }
    requires chosen { HaveChosen classes.now table.now class }
    ensures { IfOk result (λ draft. IsDraft classes.now table.now class draft) }
{
    let own = own_bodies(alloc, classes, class)?;
    let others = other_bodies(alloc, classes, class)?;
    let selected = selected_cells(alloc, classes, table, class)?;
    Ok(Draft {
        own,
        others,
        selected,
    })
}

/// Adds these bodies and then those.
fn add_bodies(all: &mut List<BodyAt>, own: &[BodyAt], others: &[BodyAt]) -> Result<(), NoMemory>
    ensures ok { OnOk result (all.new ≡ all.old ++ own.now ++ others.now) }
    ensures err { OnErr result ((all.new ≡ all.old) ⊎ (all.new ≡ all.old ++ own.now)) }
{
    all.extend_from_slice(own)?;
    all.extend_from_slice(others)?;
    Ok(())
}

/// Adds the bodies of a class, those for the methods that it introduces first, and gives it its row.
fn add_row(
    alloc: Global,
    classes: &Classes,
    table: &mut Table<MethodKind>,
    all: &mut List<BodyAt>,
    class: ClassNo,
    draft: Draft,
) -> Result<(), NoMemory>
    requires bodies { AreBodies classes.now (rows_with table.old all.old) }
    requires numbered { IsNumbered classes.now class }
    requires class { IsDeclared table.old class }
    requires filling { (parents : Seq ℕ) → map (key_at classes.now) parents ≡ (hierarchy classes.now.classes).parents (key_at classes.now class) →
        ((p : ℕ) → Mem p parents → p < class) → IsFilling classes.now table.old all.old class parents draft }
    ensures bodies { AreBodies classes.now (rows_with table.new all.new) }
    ensures earlier { Extends all.old all.new }
    ensures filled { OnOk result (HasRow table.new class) }
    ensures others { (n : ℕ) → n ≢ class → row_at table.new n ≡ row_at table.old n }
    ensures err { OnErr result (table.new ≡ table.old) }
{
    let parents = classes.parents(class).as_slice();
    let Draft {
        own,
        others,
        selected,
    } = draft;
    let mut replaced = selected;
    let first = all.len();
    add_bodies(all, own.as_slice(), others.as_slice())?;
    let count = all.len();
    let second = count - others.len();
    let cells = numbers(alloc, first, second)?;
    add_cells(&mut replaced, all.as_slice(), second)?;
    table.fill(alloc, class, parents, cells.as_slice(), replaced.as_slice())?;
    Ok(())
}

/// Keeps the first bodies alone.
fn cut(alloc: Global, all: &mut List<BodyAt>, count: usize)
    ensures { all.new ≡ take count all.old }
{
    let mut items = mem::replace(all, List::new(alloc)).into_vec();
    items.truncate(count);
    *all = List::from_vec(items);
}

/// Gives a class its row, where its parents have theirs.
fn fill_row(
    alloc: Global,
    classes: &Classes,
    table: &mut Table<MethodKind>,
    all: &mut List<BodyAt>,
    class: ClassNo,
) -> Result<(), NoMemory>
    requires bodies { AreBodies classes.now (rows_with table.old all.old) }
    requires class { IsDeclared table.old class }
    requires parents { HaveParentRows classes.now (rows_with table.old all.old) class }
    ensures bodies { AreBodies classes.now (rows_with table.new all.new) }
    ensures earlier { Extends all.old all.new }
    ensures filled { OnOk result (HasRow table.new class) }
    ensures others { (n : ℕ) → n ≢ class → row_at table.new n ≡ row_at table.old n }
    ensures table { OnErr result (table.new ≡ table.old) }
    ensures bodies_stay { OnErr result (all.new ≡ all.old) }
{
    know_loaded(classes);
    let draft = drafted(alloc, classes, table, class)?;
    let count = all.len();
    match add_row(alloc, classes, table, all, class, draft) {
        Ok(()) => Ok(()),
        Err(error) => {
            cut(alloc, all, count);
            Err(error)
        }
    }
}

impl Bodies {
    /// A number for each class, and no row.
    pub fn new(alloc: Global, classes: &Classes) -> Result<Bodies, NoMemory>
        ensures bodies { IfOk result (λ bodies. AreBodies classes.now bodies) }
        ensures none { IfOk result (λ bodies. (n : ℕ) → row_at bodies.rows n ≡ None) }
    {
        let count = classes.count();
        let table = without_rows(alloc, count)?;
        Ok(Bodies {
            table,
            all: List::new(alloc),
        })
    }

    /// Gives a class its row, where its parents have theirs. The bodies so far keep their numbers. Nothing changes where memory runs out.
    pub fn fill(&mut self, alloc: Global, classes: &Classes, class: ClassNo) -> Result<(), NoMemory>
        requires bodies { AreBodies classes.now self.old }
        requires class { IsDeclared self.old.rows class }
        requires parents { HaveParentRows classes.now self.old class }
        ensures bodies { AreBodies classes.now self.new }
        ensures earlier { Extends self.old.bodies self.new.bodies }
        ensures filled { OnOk result (HasRow self.new.rows class) }
        ensures others { (n : ℕ) → n ≢ class → row_at self.new.rows n ≡ row_at self.old.rows n }
        ensures err { OnErr result (self.new ≡ self.old) }
    {
        fill_row(alloc, classes, &mut self.table, &mut self.all, class)
    }

    /// Whether a class has a row.
    pub fn has_row(&self, class: ClassNo) -> bool
        ensures { result ≡ is_some (row_at self.now.rows class) }
    {
        self.table.has_row(class)
    }

    /// The number of the body that a class has for a method, its own or an inherited one, by two counted steps.
    pub fn resolve<L: Ledger>(
        &self,
        classes: &Classes,
        class: ClassNo,
        method: MToken,
        steps: &mut Steps<L>,
    ) -> u64
        requires bodies { AreBodies classes.now self.now }
        requires row { HasRow self.now.rows class }
        requires method { IsToken classes.now method }
        requires below { Descends (hierarchy classes.now.classes) (key_at classes.now class) (method_at classes.now method).class }
        ensures body { IsAnswer classes.now self.now class method result }
        ensures cost { steps.new ≡ steps.old + 2 }
    {
        know_loaded(classes);
        self.table.resolve(class, method, steps)
    }

    /// The body of a number.
    pub fn body(&self, number: u64) -> &BodyAt
        requires { number < length self.now.bodies }
        ensures { slice_get self.now.bodies number ≡ Some result.now }
    {
        &self.all.as_slice()[number as usize]
    }
}
