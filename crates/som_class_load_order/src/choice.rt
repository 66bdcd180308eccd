//! The metaclass of one class: SOMClass for the kernel's, else what the plan says, with its number.

ghost use Rattle.som_class_table.specs.Loaded.{AreLoaded};
ghost use Rattle.som_class_load_order.specs.Metas.{HasParents, HaveMetas, meta_at, metaclass_in, plan_numbers};
ghost use Rattle.som_meta.specs.Numbering.{AreNumbered, IsNumbered, key_at};
ghost use Rattle.som_meta.specs.Planning.{plan_key};
ghost use Rattle.som_model.specs.Classes.{class_at};
ghost use Rattle.som_model.specs.Kernel.{som_class as som_class_key};
ghost use Rattle.som_model.specs.Lists.{Mem};
ghost use Rattle.som_model.specs.Metaclass.{is_low, meta};
ghost use Rattle.som_class_ids.specs.Numbers.{with_key};
ghost use Rattle.std.specs.Option.{option_map};
ghost use Rattle.std.specs.Prelude.{◌≡◌, ◌<◌, ◌≤◌, ℕ, IfOk, IfSome, OnOk, false, length, map};

use som_class_table::Classes;
use som_meta::{MetaPlan, metaclass_of};
use som_model::{List, NoMemory};
use som_tables::ClassNo;
use std::alloc::Global;

/// Classes of lower rank are the kernel's and what is made of these alone.
const KERNEL_CLASSES: u32 = 4;

/// The number of SOMClass.
const SOM_CLASS: u32 = 1;

fn som_class(classes: &Classes) -> ClassNo
    requires { AreLoaded classes.now }
    ensures numbered { IsNumbered classes.now result }
    ensures key { key_at classes.now result ≡ som_class_key }
{
    ClassNo::new(SOM_CLASS)
}

/// The number of the metaclass that a class declares. A made class declares none.
fn declared_metaclass(classes: &Classes, class: ClassNo) -> Option<ClassNo>
    requires loaded { AreLoaded classes.now }
    requires class { IsNumbered classes.now class }
    ensures numbered { IfSome result (IsNumbered classes.now) }
    ensures key { option_map (key_at classes.now) result ≡ metaclass_in (class_at classes.now.classes (key_at classes.now class)) }
{
    if class.number() >= classes.declared_count() {
        return None;
    }
    match &classes.declared(class).decl.face.metaclass {
        Some(key) => Some(classes.number_of(key)),
        None => None,
    }
}

/// The metaclasses of these classes, in order.
fn metas_of(
    alloc: Global,
    metas: &[ClassNo],
    classes: &[ClassNo],
) -> Result<List<ClassNo>, NoMemory>
    requires { (n : ℕ) → Mem n classes.now → n < length metas.now }
    ensures { IfOk result (λ list. list ≡ map (meta_at metas.now) classes.now) }
{
    let mut list = List::new(alloc);
    for class in classes {
        list.push(metas[class.number() as usize])?;
    }
    Ok(list)
}

/// Plans the metaclass of a class that isn't made of the kernel's alone.
fn plan(
    alloc: Global,
    classes: &Classes,
    metas: &[ClassNo],
    class: ClassNo,
) -> Result<MetaPlan, NoMemory>
    requires loaded { AreLoaded classes.now }
    requires class { IsNumbered classes.now class }
    requires metas { HaveMetas classes.now metas.now }
    requires lower { class ≤ length metas.now }
    requires high { is_low classes.now.classes (key_at classes.now class) ≡ false }
    ensures numbered { IfOk result (λ plan. AreNumbered classes.now (plan_numbers plan)) }
    ensures meta { IfOk result (λ plan. plan_key classes.now plan ≡ meta classes.now.classes (key_at classes.now class)) }
{
    let declared = declared_metaclass(classes, class);
    let parents = metas_of(alloc, metas, classes.parents(class).as_slice())?;
    metaclass_of(alloc, classes, declared, &parents)
}

/// The number of the class that is planned, which has one from now on.
fn number_planned(alloc: Global, classes: &mut Classes, plan: MetaPlan) -> Result<ClassNo, NoMemory>
    requires { AreNumbered classes.old (plan_numbers plan) }
    ensures keys { OnOk result (classes.new ≡ with_key classes.old (plan_key classes.old plan)) }
    ensures class { IfOk result (λ n. IsNumbered classes.new n × (key_at classes.new n ≡ plan_key classes.old plan)) }
{
    match plan {
        MetaPlan::Existing(class) => Ok(class),
        MetaPlan::Derive(parents) => classes.derived(alloc, parents),
    }
}

/// The number of the metaclass of a class, which has one from now on, where those of all lower numbers are known.
pub(crate) fn number_metaclass(
    alloc: Global,
    classes: &mut Classes,
    metas: &[ClassNo],
    class: ClassNo,
) -> Result<ClassNo, NoMemory>
    requires loaded { AreLoaded classes.old }
    requires class { IsNumbered classes.old class }
    requires metas { HaveMetas classes.old metas.now }
    requires lower { class ≤ length metas.now }
    ensures keys { OnOk result (classes.new ≡ with_key classes.old (meta classes.old.classes (key_at classes.old class))) }
    ensures class { IfOk result (λ n. IsNumbered classes.new n × (key_at classes.new n ≡ meta classes.old.classes (key_at classes.old class))) }
{
    if classes.rank(class) < KERNEL_CLASSES {
        return Ok(som_class(classes));
    }
    let plan = plan(alloc, classes, metas, class)?;
    number_planned(alloc, classes, plan)
}

/// The parents of a class have numbers, since these are lower than its own.
pub(crate) fn know_parents(classes: &Classes, class: ClassNo)
    requires { IsNumbered classes.now class }
    ensures { HasParents classes.now (key_at classes.now class) }
{
    let _parents = classes.parents(class);
}
