//! The search over parents and metaclasses for all that a class needs and that isn't made.

ghost use Rattle.som_class_table.specs.Loaded.{AreLoaded};
ghost use Rattle.som_class_load_order.specs.Metas.{AreClosed};
ghost use Rattle.som_class_table.specs.Making.{IsMarked, IsNeedOf};
ghost use Rattle.som_class_load_order.specs.Searching.{AreNoted, AreSame, AreSearched};
ghost use Rattle.som_meta.specs.Numbering.{IsNumbered, key_at};
ghost use Rattle.som_model.specs.Classes.{parents_of};
ghost use Rattle.som_model.specs.Lists.{Mem};
ghost use Rattle.std.specs.Prelude.{◌≡◌, ◌<◌, ℕ, IfOk, OnOk, false, length, slice_index_or};

use crate::Closure;
use som_model::{List, NoMemory};
use som_tables::ClassNo;
use std::alloc::Global;
use std::collections::BTreeSet;

/// The classes that a search has come to: in the order in which it did, and as pairs of rank and number.
#[derive(Drop)]
pub(crate) struct Found {
    pub(crate) classes: List<ClassNo>,
    pub(crate) ranked: BTreeSet<(u32, u32)>,
}

/// The classes of a closure can be loaded, and with each there are its parents and its metaclass.
pub(crate) fn know_closure(closure: &Closure)
    ensures loaded { AreLoaded closure.now }
    ensures closed { AreClosed closure.now }
{
    let _count = closure.classes().count();
}

fn is_made(made: &[bool], class: ClassNo) -> bool
    ensures { result ≡ slice_index_or made.now class false }
{
    let place = class.number() as usize;
    if place < made.len() {
        made[place]
    } else {
        false
    }
}

/// Notes a class, unless it is made or was noted.
fn note(closure: &Closure, made: &[bool], class: ClassNo, found: &mut Found) -> Result<(), NoMemory>
    requires class { IsNumbered closure.now class }
    requires same { AreSame closure.now found.old.classes found.old.ranked.keys }
    ensures same { OnOk result (AreSame closure.now found.new.classes found.new.ranked.keys) }
    ensures noted { OnOk result (AreNoted made.now (λ n. n ≡ class) found.old.classes found.new.classes) }
{
    if is_made(made, class) {
        return Ok(());
    }
    let rank = closure.classes().rank(class);
    if found.ranked.insert((rank, class.number()))? {
        found.classes.push(class)?;
    }
    Ok(())
}

fn note_all(
    closure: &Closure,
    made: &[bool],
    classes: &[ClassNo],
    found: &mut Found,
) -> Result<(), NoMemory>
    requires numbered { (n : ℕ) → Mem n classes.now → IsNumbered closure.now n }
    requires same { AreSame closure.now found.old.classes found.old.ranked.keys }
    ensures same { OnOk result (AreSame closure.now found.new.classes found.new.ranked.keys) }
    ensures noted { OnOk result (AreNoted made.now (λ n. Mem n classes.now) found.old.classes found.new.classes) }
{
    for class in classes {
        note(closure, made, *class, found)?;
    }
    Ok(())
}

/// Notes the parents of a class and its metaclass.
fn note_needs(
    closure: &Closure,
    made: &[bool],
    class: ClassNo,
    found: &mut Found,
) -> Result<(), NoMemory>
    requires loaded { AreLoaded closure.now }
    requires class { IsNumbered closure.now class }
    requires same { AreSame closure.now found.old.classes found.old.ranked.keys }
    ensures same { OnOk result (AreSame closure.now found.new.classes found.new.ranked.keys) }
    ensures noted { OnOk result (AreNoted made.now (IsNeedOf closure.now class) found.old.classes found.new.classes) }
    ensures low { OnOk result ((p : ℕ) → IsNumbered closure.now p → Mem (key_at closure.now p) (parents_of closure.now.classes (key_at closure.now class)) → p < class) }
{
    note_all(
        closure,
        made,
        closure.classes().parents(class).as_slice(),
        found,
    )?;
    note(closure, made, closure.metaclass(class), found)?;
    Ok(())
}

/// The class itself and, with each class that is noted, its parents and its metaclass, but for what is made.
pub(crate) fn search(
    alloc: Global,
    closure: &Closure,
    made: &[bool],
    class: ClassNo,
) -> Result<Found, NoMemory>
    requires loaded { AreLoaded closure.now }
    requires class { IsNumbered closure.now class }
    ensures same { IfOk result (λ found. AreSame closure.now found.classes found.ranked.keys) }
    ensures searched { IfOk result (λ found. AreSearched closure.now made.now class found.classes (length found.classes)) }
{
    let mut found = Found {
        classes: List::new(alloc),
        ranked: BTreeSet::new(alloc),
    };
    note(closure, made, class, &mut found)?;
    let mut done = 0;
    while done < found.classes.len() {
        let next = found.classes.as_slice()[done];
        note_needs(closure, made, next, &mut found)?;
        done += 1;
    }
    Ok(found)
}
