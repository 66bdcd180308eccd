//! Whether no two classes of levels have one name (S1), and the level of a class by its name.

ghost use Rattle.som_compat_levels.specs.Standing.{class_of, classes_of};
ghost use Rattle.som_compat_levels.specs.Told.{level_of as level_in};
ghost use Rattle.som_flat.specs.Breaches.{named_again};
ghost use Rattle.som_flat.specs.Told.{IsLevelOf, TellsFlat};
ghost use Rattle.som_model.specs.Lists.{Mem, first};
ghost use Rattle.som_model.specs.Rules.{breach, name_of};
ghost use Rattle.som_order.specs.Names.{texts};
ghost use Rattle.som_verify_classes.specs.Told.{told};
ghost use Rattle.std.specs.Prelude.{◌≡◌, [], Err, IfOk, Some, codes, map};

use crate::breach::FlatFault;
use indexmap::IndexSet;
use som_compat_levels::{PlacedClass, level_of};
use som_model::{NoMemory, Text};
use som_order::note_name;
use som_verify_classes::Broken;
use std::alloc::Global;

/// S1: no two classes have one name, of the kernel's and of all levels.
pub fn names_differ(alloc: Global, classes: &[PlacedClass]) -> Result<(), FlatFault>
    ensures { TellsFlat (first (named_again [] (classes_of classes.now))) result }
{
    let mut seen = IndexSet::new(alloc);
    note_classes(alloc, &mut seen, classes)
}

// Notes the names of classes, if no two are one.
fn note_classes<'a>(
    alloc: Global,
    seen: &mut IndexSet<&'a [u8]>,
    classes: &[PlacedClass<'a>],
) -> Result<(), FlatFault>
    requires { texts seen.old.keys ≡ [] }
    ensures { TellsFlat (first (named_again [] (classes_of classes.now))) result }
{
    for class in classes {
        let face = class.face;
        if !note_name(seen, face.name.as_slice())? {
            return Err(named_twice(alloc, class));
        }
    }
    Ok(())
}

// That a class before this one has its name, or want of memory to tell it.
fn named_twice(alloc: Global, class: &PlacedClass) -> FlatFault
    ensures { TellsFlat (Some (level_in class.now.module, breach 1 (class_of class.now) (codes "-"))) (Err result) }
{
    match same_name(alloc, &class.face.name) {
        Ok(broken) => FlatFault::Rule {
            level: level_of(class.module),
            broken,
        },
        Err(NoMemory) => FlatFault::NoMemory,
    }
}

fn same_name(alloc: Global, name: &Text) -> Result<Broken, NoMemory>
    ensures { IfOk result (λ b. told b ≡ record { rule = 1; class = name.now; member = codes "-" }) }
{
    let class = name.copy(alloc)?;
    Ok(Broken {
        rule: 1,
        class,
        member: Text::from_slice(alloc, b"-")?,
    })
}

/// The number of the level at which a class of the name stands.
pub fn level_named(classes: &[PlacedClass], name: &Text) -> u8
    ensures { Mem name.now (map name_of (classes_of classes.now)) → IsLevelOf (classes_of classes.now) name.now result }
{
    for class in classes {
        let face = class.face;
        if face.name.is(name.as_slice()) {
            return level_of(class.module);
        }
    }
    0
}
