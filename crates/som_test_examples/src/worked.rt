//! Metaclasses, hooks and forwards of the sample, worked out.

ghost use Rattle.som_meta.specs.Numbering.{key_at, method_at};
ghost use Rattle.som_meta.specs.declared.plan.MetaPlan.TheVariants.{Derive, Existing};
ghost use Rattle.som_test_examples.specs.Sample.{first_meta, library_method, left, lower_too, right, sample as the_sample, second_meta};
ghost use Rattle.std.specs.Prelude.{◌≡◌, ◌∷◌, [], IfOk, codes, map};

use crate::Sample;
use som_hooks::hooks_of;
use som_meta::{MetaPlan, metaclass_of};
use som_model::{List, NoMemory};
use som_proxy::forwards;
use som_tables::{ClassNo, MToken};
use std::alloc::Global;

/// Two classes.
fn pair(alloc: Global, first: u32, second: u32) -> Result<List<ClassNo>, NoMemory>
    ensures { IfOk result (λ classes. classes ≡ first ∷ second ∷ []) }
{
    let mut classes = List::new(alloc);
    classes.push(ClassNo::new(first))?;
    classes.push(ClassNo::new(second))?;
    Ok(classes)
}

/// The metaclass of D, whose parents' metaclasses are F and S: to be derived from both.
pub fn metaclass_of_both(alloc: Global, sample: &Sample) -> Result<MetaPlan, NoMemory>
    ensures { IfOk result (λ plan. plan ≡ Derive (3 ∷ 4 ∷ [])) }
{
    let metas = pair(alloc, 3, 4)?;
    metaclass_of(alloc, sample, None, &metas)
}

/// The metaclass of a class whose parents' metaclasses are SOMMBeforeAfter and F, which descends from it: F.
pub fn metaclass_of_one(alloc: Global, sample: &Sample) -> Result<MetaPlan, NoMemory>
    ensures { IfOk result (λ plan. plan ≡ Existing 3) }
{
    let metas = pair(alloc, 2, 3)?;
    metaclass_of(alloc, sample, None, &metas)
}

/// The hooks of the metaclass that is derived from F and S: F and then S.
pub fn hooks_of_both(alloc: Global, sample: &Sample) -> Result<List<ClassNo>, NoMemory>
    ensures { IfOk result (λ hooks. map (key_at the_sample) hooks ≡ first_meta ∷ second_meta ∷ []) }
{
    hooks_of(alloc, sample, ClassNo::new(10))
}

/// The forwards of a proxy of G, under two classes that are both under X and Y: each method once, X's first.
pub fn forwards_of_lowest(alloc: Global, sample: &Sample) -> Result<List<MToken>, NoMemory>
    ensures { IfOk result (λ tokens. map (method_at the_sample) tokens
        ≡ library_method left (codes "f") ∷ library_method right (codes "g") ∷ library_method lower_too (codes "h") ∷ []) }
{
    forwards(alloc, sample, ClassNo::new(9))
}
