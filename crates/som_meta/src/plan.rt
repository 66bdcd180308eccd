//! The choice of a metaclass: one that exists, or one that is to be derived from several.

ghost use Rattle.som_meta.specs.Numbering.{AreNumbered};
ghost use Rattle.som_meta.specs.Planning.{chosen_key, constraints as constraints_of, plan_key, plan_of, planned};
ghost use Rattle.std.specs.Prelude.{◌≡◌, IfOk};

use crate::Ancestry;
use crate::constraints::{constraints, each_once};
use crate::lowest::lowest;
use som_model::{List, NoMemory};
use som_tables::ClassNo;
use std::alloc::Global;

/// The metaclass of a class: one that exists, or the one that is to be derived from several.
#[derive(Drop)]
pub enum MetaPlan {
    Existing(ClassNo),
    Derive(List<ClassNo>),
}

/// One class is there already, several are to be derived from.
fn plan(lowest: List<ClassNo>) -> MetaPlan
    ensures { result ≡ plan_of lowest }
{
    match lowest.as_slice() {
        [class] => MetaPlan::Existing(*class),
        _ => MetaPlan::Derive(lowest),
    }
}

/// Plans the metaclass of a class from its declared metaclass, if any, and its parents' metaclasses in order. What it takes is a few
/// questions for each two of them.
pub fn metaclass_of<H: Ancestry>(
    alloc: Global,
    known: &H,
    declared: Option<ClassNo>,
    parent_metas: &List<ClassNo>,
) -> Result<MetaPlan, NoMemory>
    requires { AreNumbered (H.known known.now) (constraints_of declared parent_metas.now) }
    ensures plan { IfOk result (λ plan. plan ≡ plan_of (planned (H.known known.now) declared parent_metas.now)) }
    ensures meta { IfOk result (λ plan. plan_key (H.known known.now) plan ≡ chosen_key (H.known known.now) declared parent_metas.now) }
{
    known.before_after();
    let all = constraints(alloc, declared, parent_metas.as_slice())?;
    let once = each_once(alloc, all.as_slice())?;
    let lowest = lowest(alloc, known, once.as_slice())?;
    Ok(plan(lowest))
}
