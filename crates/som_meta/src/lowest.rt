//! Of several classes, those that are proper ancestors of no other.

ghost use Rattle.som_meta.specs.Numbering.{AreNumbered, IsNumbered};
ghost use Rattle.som_meta.specs.Planning.{is_above_some, lowest_numbers};
ghost use Rattle.std.specs.Prelude.{◌≡◌, IfOk};

use crate::Ancestry;
use som_model::{List, NoMemory};
use som_tables::ClassNo;
use std::alloc::Global;

/// Whether a class is a proper ancestor of one of these.
fn is_above<H: Ancestry>(known: &H, classes: &[ClassNo], class: ClassNo) -> bool
    requires classes { AreNumbered (H.known known.now) classes.now }
    requires class { IsNumbered (H.known known.now) class }
    ensures { result ≡ is_above_some (H.known known.now) classes.now class }
{
    for other in classes {
        if *other != class && known.is_a(*other, class) {
            return true;
        }
    }
    false
}

/// Those classes that are proper ancestors of no other.
pub(crate) fn lowest<H: Ancestry>(
    alloc: Global,
    known: &H,
    classes: &[ClassNo],
) -> Result<List<ClassNo>, NoMemory>
    requires { AreNumbered (H.known known.now) classes.now }
    ensures { IfOk result (λ lowest. lowest ≡ lowest_numbers (H.known known.now) classes.now) }
{
    let mut lowest = List::new(alloc);
    for class in classes {
        if !is_above(known, classes, *class) {
            lowest.push(*class)?;
        }
    }
    Ok(lowest)
}
