//! Looks up the selects under a class's number, and turns them to selects with names.

ghost use Rattle.som_image_classes.specs.NamedClasses.{AreSelectsOf, select_named, selects_under};
ghost use Rattle.som_image_decode.specs.Naming.{ranges_in};
ghost use Rattle.som_image_fields.specs.Spelling.{FitsMethod};
ghost use Rattle.std.specs.Prelude.{◌≡◌, map, All, IfOk};

use som_image_decode::Directory;
use som_model::{List, NoMemory, Select};
use som_wire::{WireSelect, WireSelects};
use std::alloc::Global;

/// The selects that stand under the number of a class.
pub(crate) fn selects_under<'a>(
    directory: &Directory,
    selects: &'a List<WireSelects>,
    number: u16,
) -> &'a [WireSelect]
    requires { AreSelectsOf (ranges_in directory.now) selects.now }
    ensures under { result.now ≡ selects_under number selects.now }
    ensures known { All (λ s. FitsMethod (ranges_in directory.now) s.method) result.now }
{
    for class in selects.as_slice() {
        if class.class == number {
            return class.selects.as_slice();
        }
    }
    &[]
}

/// The selects that those of a class in an image stand for.
pub(crate) fn name_selects(
    alloc: Global,
    directory: &Directory,
    selects: &[WireSelect],
) -> Result<List<Select>, NoMemory>
    requires { All (λ s. FitsMethod (ranges_in directory.now) s.method) selects.now }
    ensures { IfOk result (λ named. named ≡ map (select_named directory.now) selects.now) }
{
    let mut named = List::new(alloc);
    for select in selects {
        named.push(name_select(alloc, directory, select)?)?;
    }
    Ok(named)
}

fn name_select(
    alloc: Global,
    directory: &Directory,
    select: &WireSelect,
) -> Result<Select, NoMemory>
    requires { FitsMethod (ranges_in directory.now) select.now.method }
    ensures { IfOk result (λ named. named ≡ select_named directory.now select.now) }
{
    Ok(Select {
        method: directory.method(alloc, select.method)?,
        parent: select.parent,
    })
}
