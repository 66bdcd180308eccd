//! The metaclasses that a class's metaclass has to descend from: the declared one and those of parents.

ghost use Rattle.som_meta.specs.Planning.{constraints as constraints_of};
ghost use Rattle.som_model.specs.Lists.{firsts, some};
ghost use Rattle.std.specs.Prelude.{◌≡◌, IfOk, nat_eq};

use som_model::{List, NoMemory};
use som_tables::ClassNo;
use std::alloc::Global;

/// The declared metaclass, if any, and then those of the parents.
pub(crate) fn constraints(
    alloc: Global,
    declared: Option<ClassNo>,
    parent_metas: &[ClassNo],
) -> Result<List<ClassNo>, NoMemory>
    ensures { IfOk result (λ all. all ≡ constraints_of declared parent_metas.now) }
{
    let mut all = List::new(alloc);
    if let Some(class) = declared {
        all.push(class)?;
    }
    all.extend_from_slice(parent_metas)?;
    Ok(all)
}

/// Whether a class is one of these.
fn is_among(class: ClassNo, classes: &[ClassNo]) -> bool
    ensures { result ≡ some (nat_eq class) classes.now }
{
    for other in classes {
        if class == *other {
            return true;
        }
    }
    false
}

/// The classes, each at its first place.
pub(crate) fn each_once(alloc: Global, classes: &[ClassNo]) -> Result<List<ClassNo>, NoMemory>
    ensures { IfOk result (λ once. once ≡ firsts nat_eq classes.now) }
{
    let mut once = List::new(alloc);
    for (place, class) in classes.iter().enumerate() {
        if !is_among(*class, &classes[..place]) {
            once.push(*class)?;
        }
    }
    Ok(once)
}
