//! The names of a class that is made, added to the index of names.

ghost use Rattle.som_class_loaded.specs.Added.{HasClass};
ghost use Rattle.som_meta.specs.Numbering.{AreNumbered, IsNumbered, names_of};
ghost use Rattle.som_model.specs.Class.{introduced};
ghost use Rattle.som_names.specs.Index.{KeepsOthers, ancestors_at, named_at};
ghost use Rattle.std.specs.Prelude.{◌≡◌, None, IfOk, OnErr, OnOk};

use som_class_table::Classes;
use som_meta::Ancestry;
use som_model::{Entry, List, NoMemory, Text};
use som_names::NameIndex;
use som_tables::ClassNo;
use std::alloc::Global;

/// The names that entries introduce, in order.
fn introduced_names(alloc: Global, entries: &[Entry]) -> Result<List<Text>, NoMemory>
    ensures { IfOk result (λ names. names ≡ introduced entries.now) }
{
    let mut names = List::new(alloc);
    for entry in entries {
        if let Entry::Introduced { name, .. } = entry {
            names.push(name.copy(alloc)?)?;
        }
    }
    Ok(names)
}

/// The names that a class introduces, in order.
fn class_names(alloc: Global, classes: &Classes, class: ClassNo) -> Result<List<Text>, NoMemory>
    requires { IsNumbered classes.now class }
    ensures { IfOk result (λ names. names ≡ names_of classes.now class) }
{
    let _count = classes.count();
    if class.number() < classes.declared_count() {
        let face = &classes.declared(class).decl.face;
        introduced_names(alloc, face.entries.as_slice())
    } else {
        Ok(List::new(alloc))
    }
}

/// Adds the names of a class to an index that doesn't have them.
pub(crate) fn add_names(
    alloc: Global,
    classes: &Classes,
    names: &mut NameIndex,
    class: ClassNo,
) -> Result<(), NoMemory>
    requires class { IsNumbered classes.now class }
    requires new { named_at names.old class ≡ None }
    ensures added { OnOk result (HasClass classes.now names.new class) }
    ensures above { OnOk result (AreNumbered classes.now (ancestors_at names.new class)) }
    ensures others { KeepsOthers names.old names.new class }
    ensures err { OnErr result (names.new ≡ names.old) }
{
    let own = class_names(alloc, classes, class)?;
    names.add(
        alloc,
        class,
        classes.ancestors(class),
        &own,
        classes.introduced(class),
    )?;
    Ok(())
}
