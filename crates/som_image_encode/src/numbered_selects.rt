//! Turns the selects of classes to those of an image, under the numbers of the classes.

ghost use Rattle.som_image_encode.specs.NumberedClasses.{ClassKnown, select_numbered, selects_numbered};
ghost use Rattle.som_image_encode.specs.Numbering.{IsDirectory, MethodKnown};
ghost use Rattle.som_order.specs.Names.{texts};
ghost use Rattle.std.specs.Prelude.{◌≡◌, ◌+◌, ◌<◌, ◌^◌, length, map, All, IfOk};

use crate::lookup::number_method;
use indexmap::IndexSet;
use som_image_decode::Directory;
use som_image_fields::{WireSelect, WireSelects};
use som_model::{ClassDecl, List, NoMemory, Select};
use std::alloc::Global;

/// The selects of an image that stand for those of these classes, of which the first has the number `first`.
pub fn number_selects(
    alloc: Global,
    names: &IndexSet<&[u8]>,
    directory: &Directory,
    first: u16,
    classes: &[ClassDecl],
) -> Result<List<WireSelects>, NoMemory>
    requires directory { IsDirectory (texts names.now.keys) directory.now }
    requires few { first + length classes.now < 2 ^ 16 }
    requires known { All (ClassKnown directory.now) classes.now }
    ensures { IfOk result (λ selects. selects ≡ selects_numbered directory.now first classes.now) }
{
    let mut numbered = List::new(alloc);
    let mut number = first;
    for class in classes {
        if !class.selects.is_empty() {
            numbered.push(WireSelects {
                class: number,
                selects: number_own(alloc, names, directory, &class.selects)?,
            })?;
        }
        number += 1;
    }
    Ok(numbered)
}

// The selects of one class.
fn number_own(
    alloc: Global,
    names: &IndexSet<&[u8]>,
    directory: &Directory,
    selects: &List<Select>,
) -> Result<List<WireSelect>, NoMemory>
    requires directory { IsDirectory (texts names.now.keys) directory.now }
    requires known { All (λ s. MethodKnown directory.now s.method) selects.now }
    ensures { IfOk result (λ numbered. numbered ≡ map (select_numbered directory.now) selects.now) }
{
    let mut numbered = List::new(alloc);
    for select in selects.as_slice() {
        numbered.push(WireSelect {
            method: number_method(directory, names, &select.method),
            parent: select.parent,
        })?;
    }
    Ok(numbered)
}
