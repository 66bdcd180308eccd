//! The classes still to be made for one class, by rank and then by number.

ghost use Rattle.som_class_table.specs.Making.{AreToMake, HaveNeeds, IsMarked};
ghost use Rattle.som_class_load_order.specs.Searching.{in_turn};
ghost use Rattle.som_meta.specs.Numbering.{IsNumbered};
ghost use Rattle.std.specs.BTreeSet.{IsOrdered};
ghost use Rattle.std.specs.Prelude.{◌≡◌, IfOk, map};

use crate::Closure;
use crate::search::{know_closure, search};
use som_model::{List, NoMemory};
use som_tables::ClassNo;
use std::alloc::Global;
use std::collections::BTreeSet;

/// The numbers alone, in order.
fn in_order(alloc: Global, ranked: &BTreeSet<(u32, u32)>) -> Result<List<ClassNo>, NoMemory>
    ensures numbers { IfOk result (λ order. order ≡ map (λ q. q.1) ranked.now.keys) }
    ensures sorted { IfOk result (λ order. IsOrdered in_turn ranked.now) }
{
    let mut order = List::new(alloc);
    for key in ranked {
        order.push(ClassNo::new(key.1))?;
    }
    Ok(order)
}

/// The classes that are still to be made for a class, lower ranks first and then lower numbers: those that are needed and aren't made. What is made has to be
/// closed, with SOMClass among it; then it stays so after each class of the answer that is made, in this order. What it takes is as much as the classes of
/// the answer have parents, and a look-up for each of these.
pub fn to_make(
    alloc: Global,
    closure: &Closure,
    made: &[bool],
    class: ClassNo,
) -> Result<List<ClassNo>, NoMemory>
    requires class { IsNumbered closure.now class }
    requires som_class { IsMarked made.now 1 }
    requires closed { HaveNeeds closure.now (IsMarked made.now) }
    ensures { IfOk result (λ order. AreToMake closure.now made.now class order) }
{
    know_closure(closure);
    let found = search(alloc, closure, made, class)?;
    in_order(alloc, &found.ranked)
}
