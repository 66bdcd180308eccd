//! What is noted of classes by their places, made once for each list.

ghost use Rattle.som_compat_levels.specs.Standing.{AreStanding, classes_of};
ghost use Rattle.som_compat_levels.specs.Tables.{AreTables};
ghost use Rattle.std.specs.Prelude.{IfOk};

use crate::classes::PlacedClass;
use crate::owners::{Slot, entry_owners};
use crate::rows::{metaclass_places, parent_rows};
use som_model::{List, NoMemory};
use som_verify_parents::ancestors;
use std::alloc::Global;

/// The parents, the ancestors and the metaclass of each class by places, and the owners of its entries.
#[derive(Drop)]
pub struct Tables {
    pub parents: Vec<List<usize>>,
    pub ancestors: Vec<List<usize>>,
    pub metaclasses: Vec<Option<usize>>,
    pub owners: Vec<List<Slot>>,
}

/// Classes of all levels, their places in the order of their keys, and what is noted of them.
#[derive(Clone, Copy)]
pub struct Levels<'a> {
    pub classes: &'a [PlacedClass<'a>],
    pub places: &'a [usize],
    pub tables: &'a Tables,
}

/// Notes all of classes that can stand.
pub fn tables_of(
    alloc: Global,
    classes: &[PlacedClass],
    places: &[usize],
) -> Result<Tables, NoMemory>
    requires { AreStanding (classes_of classes.now) }
    ensures { IfOk result (λ tables. AreTables (classes_of classes.now) tables) }
{
    let parents = parent_rows(alloc, classes, places)?;
    let ancestors = ancestors(alloc, &parents)?;
    let metaclasses = metaclass_places(alloc, classes, places)?;
    let owners = entry_owners(alloc, classes, places)?;
    Ok(Tables {
        parents,
        ancestors,
        metaclasses,
        owners,
    })
}
