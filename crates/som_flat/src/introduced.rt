//! Whether no two classes of levels introduce one name, so that no class can have two ancestors that do (S8).

ghost use Rattle.som_compat_levels.specs.Standing.{classes_of};
ghost use Rattle.som_model.specs.Class.{introduced};
ghost use Rattle.som_order.specs.Names.{texts};
ghost use Rattle.som_verify_rules.specs.Shared.{Twice, all_introduced};
ghost use Rattle.std.specs.Prelude.{◌≡◌, ◌++◌, ℕ, IfOk, IsTrue, List as Seq, OnOk};

use som_compat_levels::PlacedClass;
use som_model::{Entry, NoMemory};
use som_verify_parents::{add, first_double};
use std::alloc::Global;

/// Whether no name is introduced twice by these classes.
pub fn are_introduced_once(alloc: Global, classes: &[PlacedClass]) -> Result<bool, NoMemory>
    ensures { IfOk result (λ once. IsTrue once → (name : Seq ℕ) → Twice name (all_introduced (classes_of classes.now)) → ⊥) }
{
    let names = introduced_names(alloc, classes)?;
    let double = first_double(alloc, &names)?;
    Ok(double.is_none())
}

// The names that classes introduce, in order.
fn introduced_names<'a>(
    alloc: Global,
    classes: &[PlacedClass<'a>],
) -> Result<Vec<&'a [u8]>, NoMemory>
    ensures { IfOk result (λ names. texts names.items ≡ all_introduced (classes_of classes.now)) }
{
    let mut names = Vec::new(alloc);
    for class in classes {
        let face = class.face;
        add_introduced(&mut names, face.entries.as_slice())?;
    }
    Ok(names)
}

fn add_introduced<'a>(names: &mut Vec<&'a [u8]>, entries: &'a [Entry]) -> Result<(), NoMemory>
    ensures { OnOk result (texts names.new.items ≡ texts names.old.items ++ introduced entries.now) }
{
    for entry in entries {
        if let Entry::Introduced { name, .. } = entry {
            add(names, name.as_slice())?;
        }
    }
    Ok(())
}
