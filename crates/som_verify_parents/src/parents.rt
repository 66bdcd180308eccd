//! Checks that parents stand before their classes (S2) and differ (S3), and answers them by places.

ghost use Rattle.som_model.specs.Conforming.{each_after};
ghost use Rattle.som_model.specs.Kernel.{kernel};
ghost use Rattle.som_model.specs.Lists.{first, option_list};
ghost use Rattle.som_model.specs.Rules.{s2, s3};
ghost use Rattle.som_order.specs.Names.{texts};
ghost use Rattle.som_verify_classes.specs.Modules.{class_of, classes_of};
ghost use Rattle.som_verify_classes.specs.Places.{IsRows, IsTable, with_kernel};
ghost use Rattle.som_verify_classes.specs.Standing.{ClassStands, RowStands, all_stand, kernel_rows};
ghost use Rattle.som_verify_classes.specs.Told.{Tells};
ghost use Rattle.std.specs.Prelude.{◌≡◌, ◌++◌, ◌∷◌, [], length, flat_map, IfOk, OnOk};

use crate::double::has_double;
use indexmap::IndexSet;
use som_model::{ClassKey, List, NoMemory};
use som_verify_classes::{Declared, VerifyFault, find_class, refusal};
use std::alloc::Global;

/// S2: each parent and each metaclass is a class of the kernel or stands before its class. Answers the parents of each
/// class by their places.
pub fn parents_stand(
    alloc: Global,
    table: &IndexSet<&[u8]>,
    classes: &[Declared],
) -> Result<Vec<List<usize>>, VerifyFault>
    requires { IsTable (classes_of classes.now) (texts table.now.keys) }
    ensures tells { Tells (first (each_after s2 kernel (classes_of classes.now))) result }
    ensures rows { IfOk result (λ rows. IsRows (with_kernel (classes_of classes.now))
        (length (with_kernel (classes_of classes.now))) rows.items) }
{
    let mut rows = kernel_parents(alloc)?;
    add_parents(alloc, table, classes, &mut rows)?;
    Ok(rows)
}

// Adds the parents of these classes after those of the kernel's.
fn add_parents(
    alloc: Global,
    table: &IndexSet<&[u8]>,
    classes: &[Declared],
    rows: &mut Vec<List<usize>>,
) -> Result<(), VerifyFault>
    requires table { IsTable (classes_of classes.now) (texts table.now.keys) }
    requires rows { rows.old.items ≡ kernel_rows }
    ensures tells { Tells (first (each_after s2 kernel (classes_of classes.now))) result }
    ensures rows { OnOk result (IsRows (with_kernel (classes_of classes.now))
        (length (with_kernel (classes_of classes.now))) rows.new.items) }
{
    for class in classes {
        let row = standing_row(alloc, table, classes, class, rows.len())?;
        rows.push(row)?;
    }
    Ok(())
}

// The parents of a class by their places, if they and the metaclass stand before the place.
fn standing_row(
    alloc: Global,
    table: &IndexSet<&[u8]>,
    classes: &[Declared],
    class: &Declared,
    place: usize,
) -> Result<List<usize>, VerifyFault>
    requires { IsTable (classes_of classes.now) (texts table.now.keys) }
    ensures { ClassStands (with_kernel (classes_of classes.now)) place (class_of class.now) result }
{
    let decl = class.decl;
    if !metaclass_stands(table, classes, &decl.face.metaclass, place) {
        return Err(refusal(alloc, 2, decl, b"-"));
    }
    match row_of(alloc, table, classes, decl.face.parents.as_slice(), place)? {
        Some(row) => Ok(row),
        None => Err(refusal(alloc, 2, decl, b"-")),
    }
}

// The parents of the kernel's classes.
fn kernel_parents(alloc: Global) -> Result<Vec<List<usize>>, NoMemory>
    ensures { IfOk result (λ rows. rows.items ≡ kernel_rows) }
{
    let mut rows = Vec::new(alloc);
    add_kernel_parents(alloc, &mut rows)?;
    Ok(rows)
}

fn add_kernel_parents(alloc: Global, rows: &mut Vec<List<usize>>) -> Result<(), NoMemory>
    requires { rows.old.items ≡ [] }
    ensures { OnOk result (rows.new.items ≡ kernel_rows) }
{
    add_row(alloc, rows, &[])?;
    add_row(alloc, rows, &[0])?;
    add_row(alloc, rows, &[0])?;
    add_row(alloc, rows, &[1])
}

fn add_row(alloc: Global, rows: &mut Vec<List<usize>>, row: &[usize]) -> Result<(), NoMemory>
    ensures { OnOk result (rows.new.items ≡ rows.old.items ++ row.now ∷ []) }
{
    rows.push(List::from_slice(alloc, row)?)?;
    Ok(())
}

// The places of the parents, if all stand before the place.
fn row_of(
    alloc: Global,
    table: &IndexSet<&[u8]>,
    classes: &[Declared],
    parents: &[ClassKey],
    place: usize,
) -> Result<Option<List<usize>>, NoMemory>
    requires { IsTable (classes_of classes.now) (texts table.now.keys) }
    ensures { IfOk result (λ row. RowStands (with_kernel (classes_of classes.now)) place parents.now row) }
{
    let mut row = List::new(alloc);
    for parent in parents {
        match find_class(table, classes, parent, place) {
            Some(found) => row.push(found)?,
            None => return Ok(None),
        }
    }
    Ok(Some(row))
}

fn metaclass_stands(
    table: &IndexSet<&[u8]>,
    classes: &[Declared],
    metaclass: &Option<ClassKey>,
    place: usize,
) -> bool
    requires { IsTable (classes_of classes.now) (texts table.now.keys) }
    ensures { result ≡ all_stand (with_kernel (classes_of classes.now)) place (option_list metaclass.now) }
{
    match metaclass {
        None => true,
        Some(key) => find_class(table, classes, key, place).is_some(),
    }
}

/// S3: no parent of a class stands twice.
pub fn parents_differ(alloc: Global, classes: &[Declared]) -> Result<(), VerifyFault>
    ensures { Tells (first (flat_map s3 (classes_of classes.now))) result }
{
    for class in classes {
        own_parents_differ(alloc, class)?;
    }
    Ok(())
}

fn own_parents_differ(alloc: Global, class: &Declared) -> Result<(), VerifyFault>
    ensures { Tells (first (s3 (class_of class.now))) result }
{
    if has_double(class.decl.face.parents.as_slice()) {
        return Err(refusal(alloc, 3, class.decl, b"-"));
    }
    Ok(())
}
