//! The pass over all class numbers that finds each metaclass, and numbers those that are derived.

ghost use Rattle.som_class_load_order.specs.Metas.{AreMetas};
ghost use Rattle.som_model.specs.Lists.{Mem};
ghost use Rattle.som_model.specs.Made.{ComesOf};
ghost use Rattle.som_model.specs.declared.key.ClassKey.{ClassKey};
ghost use Rattle.std.specs.Prelude.{◌≡◌, ◌↔◌, IfOk, OnOk};

use crate::choice::{know_parents, number_metaclass};
use som_class_table::Classes;
use som_model::{List, NoMemory};
use som_tables::ClassNo;
use std::alloc::Global;

/// The metaclass of each class, number by number. A derived one gets the next number, so that its own metaclass is asked for later; since it is of lower rank
/// than its class, this ends.
pub(crate) fn number_metaclasses(
    alloc: Global,
    classes: &mut Classes,
) -> Result<List<ClassNo>, NoMemory>
    ensures classes { OnOk result (classes.new.classes ≡ classes.old.classes) }
    ensures keys { OnOk result ((key : ClassKey) → Mem key classes.new.keys ↔ ComesOf classes.old.classes classes.old.keys key) }
    ensures metas { IfOk result (λ metas. AreMetas classes.new metas) }
{
    let mut metas = List::new(alloc);
    while metas.len() < classes.count() as usize {
        let class = ClassNo::new(metas.len() as u32);
        know_parents(classes, class);
        let meta = number_metaclass(alloc, classes, metas.as_slice(), class)?;
        metas.push(meta)?;
    }
    Ok(metas)
}
