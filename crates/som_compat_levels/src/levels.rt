//! Compares newer levels of libraries with older ones, class by class from the lowest level on.

ghost use Rattle.som_compat.specs.Told.{told_by_list};
ghost use Rattle.som_compat_levels.specs.Conditions.{AreComparable};
ghost use Rattle.som_compat_levels.specs.Pairs.{AreBegun, ArePaired};
ghost use Rattle.som_compat_levels.specs.Standing.{AreStanding, classes_of};
ghost use Rattle.som_compat_levels.specs.Tables.{AreLevels, classes_in};
ghost use Rattle.som_compat_levels.specs.Told.{TellsLevels, first_leveled, level_of as level_in};
ghost use Rattle.som_level_laws.specs.Levels.{CompatibleLevels, first_level_break};
ghost use Rattle.som_model.specs.Kernel.{kernel_interface};
ghost use Rattle.std.specs.Prelude.{◌≡◌, ◌+◌, ◌<◌, ◌≤◌, ℕ, IfOk, false, length, replicate, slice_index_or};

use crate::breach::{LevelFault, owned_breach};
use crate::classes::{PlacedClass, all_classes};
use crate::finding::sorted_places;
use crate::pair::class_keeps;
use crate::same_levels::are_same;
use crate::tables::{Levels, tables_of};
use som_builtins::kernel_faces;
use som_compat::Breach;
use som_model::{Interface, List, Module, NoMemory};
use som_verify_classes::KERNEL_CLASSES;
use std::alloc::Global;

/// Whether newer levels keep what older ones promise, and else what they break first: by the old levels, then
/// by class order, by rule and by place. Levels that are the same keep all, and no table is made of them.
pub fn compatible_levels(
    alloc: Global,
    olds: &List<Interface>,
    news: &List<Interface>,
) -> Result<(), LevelFault>
    requires { AreComparable olds.now news.now }
    ensures tells { TellsLevels (first_level_break olds.now news.now) result }
    ensures kept { IfOk result (λ _. CompatibleLevels olds.now news.now) }
{
    if are_same(olds, news) {
        return Ok(());
    }
    compare_all(alloc, olds, news)
}

// Compares levels class by class.
fn compare_all(
    alloc: Global,
    olds: &List<Interface>,
    news: &List<Interface>,
) -> Result<(), LevelFault>
    requires { AreComparable olds.now news.now }
    ensures tells { TellsLevels (first_level_break olds.now news.now) result }
    ensures kept { IfOk result (λ _. CompatibleLevels olds.now news.now) }
{
    let kernel = kernel_faces(alloc)?;
    compare_above(alloc, &kernel, olds.as_slice(), news.as_slice())
}

// Compares levels above the kernel's classes.
fn compare_above(
    alloc: Global,
    kernel: &Interface,
    olds: &[Interface],
    news: &[Interface],
) -> Result<(), LevelFault>
    requires kernel { kernel.now ≡ kernel_interface }
    requires levels { AreComparable olds.now news.now }
    ensures { TellsLevels (first_level_break olds.now news.now) result }
{
    let old_classes = all_classes(alloc, kernel.classes.as_slice(), olds)?;
    let new_classes = all_classes(alloc, kernel.classes.as_slice(), news)?;
    compare(alloc, &old_classes, &new_classes)
}

fn compare(alloc: Global, olds: &[PlacedClass], news: &[PlacedClass]) -> Result<(), LevelFault>
    requires old { AreStanding (classes_of olds.now) }
    requires new { AreStanding (classes_of news.now) }
    ensures { TellsLevels (first_leveled (classes_of olds.now) (classes_of news.now)) result }
{
    let old_places = sorted_places(alloc, olds)?;
    let new_places = sorted_places(alloc, news)?;
    let old_tables = tables_of(alloc, olds, &old_places)?;
    let new_tables = tables_of(alloc, news, &new_places)?;
    let old = Levels {
        classes: olds,
        places: &old_places,
        tables: &old_tables,
    };
    let new = Levels {
        classes: news,
        places: &new_places,
        tables: &new_tables,
    };
    look_through(alloc, &old, &new)
}

fn look_through(alloc: Global, old: &Levels, new: &Levels) -> Result<(), LevelFault>
    requires old { AreLevels old.now }
    requires new { AreLevels new.now }
    ensures { TellsLevels (first_leveled (classes_in old.now) (classes_in new.now)) result }
{
    let mut pairs = numbers(alloc, old.classes.len())?;
    let mut marks = zeros(alloc, new.classes.len())?;
    let mut below = clear_marks(alloc, new.classes.len())?;
    match all_keep(old, new, &mut pairs, &mut marks, &mut below) {
        Ok(_) => Ok(()),
        Err((level, breach)) => Err(LevelFault::Breach(owned_breach(alloc, level, &breach)?)),
    }
}

// The numbers below a count, in order.
fn numbers(alloc: Global, count: usize) -> Result<Vec<usize>, NoMemory>
    ensures long { IfOk result (λ list. length list.items ≡ count) }
    ensures by { IfOk result (λ list. (p : ℕ) → p < count → slice_index_or list.items p 0 ≡ p) }
{
    let mut list = Vec::new(alloc);
    for number in 0..count {
        list.push(number)?;
    }
    Ok(list)
}

fn zeros(alloc: Global, count: usize) -> Result<Vec<usize>, NoMemory>
    ensures { IfOk result (λ list. list.items ≡ replicate count 0) }
{
    let mut list = Vec::new(alloc);
    list.resize(count, 0)?;
    Ok(list)
}

fn clear_marks(alloc: Global, count: usize) -> Result<Vec<bool>, NoMemory>
    ensures { IfOk result (λ list. list.items ≡ replicate count false) }
{
    let mut list = Vec::new(alloc);
    list.resize(count, false)?;
    Ok(list)
}

// What the old classes after the kernel's break first, with the number of the level.
fn all_keep<'a>(
    old: &Levels<'a>,
    new: &Levels,
    pairs: &mut [usize],
    marks: &mut [usize],
    below: &mut [bool],
) -> Result<(), (u8, Breach<'a>)>
    requires old { AreLevels old.now }
    requires new { AreLevels new.now }
    requires pairs { ArePaired (classes_in old.now) (classes_in new.now) 4 pairs.old }
    requires orders { AreBegun (classes_in old.now) (classes_in new.now) 4 pairs.old }
    requires marks { length marks.old ≡ length (classes_in new.now) }
    requires fresh { (k : ℕ) → slice_index_or marks.old k 0 < 5 }
    requires below { length below.old ≡ length (classes_in new.now) }
    ensures { told_by_list result ≡ first_leveled (classes_in old.now) (classes_in new.now) }
{
    for place in KERNEL_CLASSES..old.classes.len() {
        match class_keeps(old, new, pairs, marks, below, place) {
            Ok(_) => {}
            Err(breach) => return Err((level_of(old.classes[place].module), breach)),
        }
    }
    Ok(())
}

/// The number of the level whose classes have the module.
pub fn level_of(home: Module) -> u8
    ensures { result ≡ level_in home }
{
    match home {
        Module::Upper(level) => level,
        _ => 0,
    }
}
