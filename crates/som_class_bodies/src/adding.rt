//! How the bodies of one class come to the list of all bodies, and their numbers to its cells.

ghost use Rattle.som_class_bodies.specs.Adding.{bodies_from, cells_from, numbers_from, source_of};
ghost use Rattle.som_class_bodies.specs.declared.adding.Way.TheVariants as ways;
ghost use Rattle.som_class_bodies.specs.declared.body.BodyAt.{BodyAt as Body};
ghost use Rattle.std.specs.Option.{option_map};
ghost use Rattle.std.specs.Prelude.{◌≡◌, ◌-◌, ◌<◌, ◌≤◌, ◌++◌, IfOk, OnOk, Some, drop, length, slice_get};

use crate::body::{BodyAt, Source};
use som_model::{List, NoMemory};
use som_tables::{ClassNo, MToken};
use std::alloc::Global;

/// How the bodies of several methods stand in the class that has them.
#[derive(Clone, Copy)]
pub(crate) enum Way {
    Introduced,
    Overriding,
    Kernel,
    Forward,
    Nothing,
}

/// The source of the body for a method, which stands at a place among others that stand so.
fn source_at(way: Way, method: MToken, place: usize) -> Source
    requires { way ≡ ways.Overriding → place ≤ 65535 }
    ensures { result ≡ source_of way method place }
{
    match way {
        Way::Introduced => Source::Introduced(method.place()),
        Way::Overriding => Source::Overriding(place as u16),
        Way::Kernel => Source::Kernel,
        Way::Forward => Source::Forward,
        Way::Nothing => Source::Nothing,
    }
}

/// The bodies of a class for these methods, which stand so in it.
#[tactic(auto, using(crate::proofs::Cells::bodies_step))]
pub(crate) fn bodies_for(
    alloc: Global,
    class: ClassNo,
    methods: &[MToken],
    way: Way,
) -> Result<List<BodyAt>, NoMemory>
    requires { way ≡ ways.Overriding → length methods.now ≤ 65535 }
    ensures { IfOk result (λ bodies. bodies ≡ bodies_from class way 0 methods.now) }
{
    let mut bodies = List::new(alloc);
    for (place, method) in methods.iter().enumerate() {
        bodies.push(BodyAt {
            class,
            method: *method,
            source: source_at(way, *method, place),
        })?;
    }
    Ok(bodies)
}

/// The numbers from one on to another.
#[tactic(auto, using(crate::proofs::Cells::numbers_step))]
pub(crate) fn numbers(alloc: Global, from: usize, to: usize) -> Result<List<u64>, NoMemory>
    requires { from ≤ to }
    ensures { IfOk result (λ numbers. numbers ≡ numbers_from from (to - from)) }
{
    let mut numbers = List::new(alloc);
    for place in from..to {
        numbers.push(place as u64)?;
    }
    Ok(numbers)
}

fn method_at(all: &[BodyAt], place: usize) -> MToken
    requires { place < length all.now }
    ensures { option_map (λ (x : Body). x.method) (slice_get all.now place) ≡ Some result }
{
    all[place].method
}

/// Adds the methods of the bodies from a number on, each with its body's number.
pub(crate) fn add_cells(
    cells: &mut List<(MToken, u64)>,
    all: &[BodyAt],
    from: usize,
) -> Result<(), NoMemory>
    requires { from ≤ length all.now }
    ensures { OnOk result (cells.new ≡ cells.old ++ cells_from from (drop from all.now)) }
{
    for place in from..all.len() {
        cells.push((method_at(all, place), place as u64))?;
    }
    Ok(())
}
