//! The bodies that a class has for methods, its own or others', and the cells of parents that it selects.

ghost use Rattle.som_class_bodies.specs.Adding.{AreForwarded, AreOthers, AreOwn, AreSelected, HaveChosen, IsChosenCell, bodies_from, life, own_way_of};
ghost use Rattle.som_class_bodies.specs.declared.adding.Way.TheVariants as ways;
ghost use Rattle.som_class_table.specs.Loaded.{AreLoaded};
ghost use Rattle.som_meta.specs.Numbering.{IsNumbered, IsToken, key_at, method_at};
ghost use Rattle.som_model.specs.Implementation.{selected as selected_of};
ghost use Rattle.som_model.specs.declared.key.ClassKey.TheVariants as keys;
ghost use Rattle.som_class_ids.specs.Numbers.{IsProxy};
ghost use Rattle.std.specs.Prelude.{◌≡◌, ◌↔◌, ◌<◌, IfOk, IsSome, IsTrue, Some, length, slice_get};

use crate::adding::{Way, bodies_for};
use crate::body::BodyAt;
use som_class_ids::Kind;
use som_class_table::Classes;
use som_meta::Ancestry;
use som_model::{List, NoMemory};
use som_proxy::forwards;
use som_tables::{ClassNo, MToken, MethodKind, Table, Token};
use std::alloc::Global;

/// How the bodies stand that a class has for the methods that it introduces.
fn own_way(classes: &Classes, class: ClassNo) -> Way
    requires { IsNumbered classes.now class }
    ensures { result ≡ own_way_of classes.now class }
{
    if classes.is_kernel(class) {
        Way::Kernel
    } else {
        Way::Introduced
    }
}

/// The bodies of a class for the methods that it introduces.
pub(crate) fn own_bodies(
    alloc: Global,
    classes: &Classes,
    class: ClassNo,
) -> Result<List<BodyAt>, NoMemory>
    requires numbered { IsNumbered classes.now class }
    requires loaded { AreLoaded classes.now }
    ensures { IfOk result (λ bodies. AreOwn classes.now class bodies) }
{
    let way = own_way(classes, class);
    bodies_for(alloc, class, classes.introduced(class).as_slice(), way)
}

/// The bodies of a declared class for the methods that it overrides.
fn overriding_bodies(
    alloc: Global,
    classes: &Classes,
    class: ClassNo,
) -> Result<List<BodyAt>, NoMemory>
    requires declared { class < length classes.now.classes }
    requires loaded { AreLoaded classes.now }
    ensures { IfOk result (λ bodies. AreOthers classes.now class bodies) }
{
    bodies_for(alloc, class, classes.overridden(class), Way::Overriding)
}

fn first_of(classes: &[ClassNo]) -> ClassNo
    requires { 0 < length classes.now }
    ensures { slice_get classes.now 0 ≡ Some result }
{
    classes[0]
}

/// The class whose objects are the targets of a proxy.
fn target(classes: &Classes, class: ClassNo) -> ClassNo
    requires numbered { IsNumbered classes.now class }
    requires proxy { IsProxy classes.now class }
    ensures numbered { IsNumbered classes.now result }
    ensures key { key_at classes.now class ≡ keys.Proxy (key_at classes.now result) }
{
    first_of(classes.parents(class).as_slice())
}

/// A proxy does nothing to begin and to end an object.
fn life_bodies(alloc: Global, class: ClassNo) -> Result<List<BodyAt>, NoMemory>
    ensures { IfOk result (λ bodies. bodies ≡ bodies_from class ways.Nothing 0 life) }
{
    let object = ClassNo::new(0);
    let life = [Token::new(object, 0), Token::new(object, 1)];
    bodies_for(alloc, class, &life, Way::Nothing)
}

/// A proxy hands on the calls of what the ancestors of its target outside the kernel introduce.
fn forwarded_bodies(
    alloc: Global,
    classes: &Classes,
    class: ClassNo,
    of: ClassNo,
) -> Result<List<BodyAt>, NoMemory>
    requires { IsNumbered classes.now of }
    ensures { IfOk result (λ bodies. AreForwarded classes.now class (key_at classes.now of) bodies) }
{
    let handed = forwards(alloc, classes, of)?;
    let bodies = bodies_for(alloc, class, handed.as_slice(), Way::Forward)?;
    Ok(bodies)
}

/// The bodies of a proxy for methods of other classes.
fn proxy_bodies(
    alloc: Global,
    classes: &Classes,
    class: ClassNo,
    of: ClassNo,
) -> Result<List<BodyAt>, NoMemory>
    requires numbered { IsNumbered classes.now class }
    requires of { IsNumbered classes.now of }
    requires proxy { key_at classes.now class ≡ keys.Proxy (key_at classes.now of) }
    requires loaded { AreLoaded classes.now }
    ensures { IfOk result (λ bodies. AreOthers classes.now class bodies) }
{
    let mut bodies = life_bodies(alloc, class)?;
    let forwarded = forwarded_bodies(alloc, classes, class, of)?;
    bodies.extend_from_slice(forwarded.as_slice())?;
    Ok(bodies)
}

/// The bodies of a class for methods of other classes.
pub(crate) fn other_bodies(
    alloc: Global,
    classes: &Classes,
    class: ClassNo,
) -> Result<List<BodyAt>, NoMemory>
    requires numbered { IsNumbered classes.now class }
    requires loaded { AreLoaded classes.now }
    ensures { IfOk result (λ bodies. AreOthers classes.now class bodies) }
{
    match classes.kind(class) {
        Kind::Declared => overriding_bodies(alloc, classes, class),
        Kind::Derived => Ok(List::new(alloc)),
        Kind::Proxy => {
            let of = target(classes, class);
            proxy_bodies(alloc, classes, class, of)
        }
    }
}

/// The cell of a method in the row of the parent that a class selects for it.
fn selected_cell(
    classes: &Classes,
    table: &Table<MethodKind>,
    class: ClassNo,
    method: MToken,
) -> u64
    requires declared { class < length classes.now.classes }
    requires method { IsToken classes.now method }
    requires some { IsSome (selected_of classes.now.classes (method_at classes.now method) (key_at classes.now class)) }
    requires rows { HaveChosen classes.now table.now class }
    ensures { IsChosenCell classes.now table.now class method result }
{
    match classes.selected(class, method) {
        Some(parent) => table.cell(parent, method),
        None => unreachable!(),
    }
}

/// For each method for which a declared class selects a parent the cell in that parent's row.
fn declared_cells(
    alloc: Global,
    classes: &Classes,
    table: &Table<MethodKind>,
    class: ClassNo,
) -> Result<List<(MToken, u64)>, NoMemory>
    requires declared { class < length classes.now.classes }
    requires loaded { AreLoaded classes.now }
    requires rows { HaveChosen classes.now table.now class }
    ensures { IfOk result (λ cells. AreSelected classes.now table.now class cells) }
{
    let mut cells = List::new(alloc);
    let methods = classes.selecting(class);
    for method in methods {
        let cell = selected_cell(classes, table, class, *method);
        cells.push((*method, cell))?;
    }
    Ok(cells)
}

/// Whether a class is declared.
fn is_declared(classes: &Classes, class: ClassNo) -> bool
    ensures { IsTrue result ↔ (class < length classes.now.classes) }
{
    class.number() < classes.declared_count()
}

/// For each method for which a class selects a parent the cell in that parent's row; a made class selects nothing.
pub(crate) fn selected_cells(
    alloc: Global,
    classes: &Classes,
    table: &Table<MethodKind>,
    class: ClassNo,
) -> Result<List<(MToken, u64)>, NoMemory>
    requires numbered { IsNumbered classes.now class }
    requires loaded { AreLoaded classes.now }
    requires rows { HaveChosen classes.now table.now class }
    ensures { IfOk result (λ cells. AreSelected classes.now table.now class cells) }
{
    if is_declared(classes, class) {
        declared_cells(alloc, classes, table, class)
    } else {
        Ok(List::new(alloc))
    }
}
