//! New objects of a task, with zero values, and for a proxy its target.

ghost use Rattle.som_interp_objects.specs.Making.{AreWith, IsNext};
ghost use Rattle.som_semantics.specs.State.{Heap};
ghost use Rattle.som_objects.specs.Objects.{KeepsKnown};
ghost use Rattle.som_objects.specs.declared.cell.Cell.TheVariants as held;
ghost use Rattle.som_interp_state.specs.Asked.{is_proxy as is_proxy_key};
ghost use Rattle.som_interp_state.specs.Holding.{Holding, IsUsable};
ghost use Rattle.som_interp_state.specs.Stored.{AreSerials, Spares};
ghost use Rattle.som_values.specs.Shown.{IsNumbered, key_of};
ghost use Rattle.som_interp_objects.specs.Statics.{Statics};
ghost use Rattle.std.specs.Prelude.{◌≡◌, ◌+◌, ◌++◌, ◌∷◌, [], ℕ, IfOk, List as Seq, OnErr, OnOk, false, length, take, true};

use crate::zero_cells;
use som_interp_state::Runtime;
use som_model::{List, NoMemory};
use som_objects::{Cell, ObjRef, ObjectStore};
use som_tables::ClassNo;
use std::alloc::Global;
use std::mem;

/// Makes an object of a class, with its variables at their zero values; its serial comes last among the task's. A
/// proxy has a target, and for another class the target is nil. Where there is no memory nothing has changed.
pub fn make<R: Runtime>(
    alloc: Global,
    runtime: &R,
    objects: &mut ObjectStore,
    serials: &mut List<u32>,
    class: ClassNo,
    target: Cell,
) -> Result<ObjRef, NoMemory>
    requires class { IsNumbered (R.linked runtime.now).keys class }
    requires made { R.made runtime.now (key_of (R.linked runtime.now).keys class) ≡ true }
    requires target { is_proxy_key (key_of (R.linked runtime.now).keys class) ≡ false → target ≡ held.Nil }
    ensures next { (statics : Statics) (h : Heap) → Holding (R.linked runtime.now) (R.made runtime.now) serials.old objects.old statics h → IsUsable (R.linked runtime.now) (R.made runtime.now) serials.old objects.old target
        → IfOk result (IsNext (R.linked runtime.now) (R.made runtime.now) class target serials.old objects.new statics h) }
    ensures serial { IfOk result (λ r. r.serial ≡ length objects.old + 1) }
    ensures serials { IfOk result (λ r. serials.new ≡ serials.old ++ r.serial ∷ []) }
    ensures err_serials { OnErr result (serials.new ≡ serials.old) }
    ensures err { OnErr result (objects.new ≡ objects.old) }
    ensures others { (ys : Seq ℕ) → AreSerials ys objects.old → Spares ys objects.old objects.new }
    ensures keeps { KeepsKnown objects.old objects.new }
    ensures count { OnOk result (length objects.new ≡ length objects.old + 1) }
{
    let cells = new_cells(alloc, runtime, class, target)?;
    let count = serials.len();
    serials.push(objects.next_serial()?)?;
    match objects.make(class, cells) {
        Ok(object) => Ok(object),
        Err(error) => {
            cut(alloc, serials, count);
            Err(error)
        },
    }
}

// The cells of a new object, with a proxy's target.
fn new_cells<R: Runtime>(
    alloc: Global,
    runtime: &R,
    class: ClassNo,
    target: Cell,
) -> Result<List<Cell>, NoMemory>
    requires class { IsNumbered (R.linked runtime.now).keys class }
    requires made { R.made runtime.now (key_of (R.linked runtime.now).keys class) ≡ true }
    ensures { IfOk result (AreWith (R.linked runtime.now) class target) }
{
    let mut cells = zero_cells(alloc, runtime, class)?;
    if is_proxy(runtime, class) {
        cells.push(target)?;
    }
    Ok(cells)
}

fn is_proxy<R: Runtime>(runtime: &R, class: ClassNo) -> bool
    requires { IsNumbered (R.linked runtime.now).keys class }
    ensures { result ≡ is_proxy_key (key_of (R.linked runtime.now).keys class) }
{
    runtime.know();
    runtime.is_proxy(class)
}

// Keeps the first serials alone.
fn cut(alloc: Global, serials: &mut List<u32>, count: usize)
    ensures { serials.new ≡ take count serials.old }
{
    let mut items = mem::replace(serials, List::new(alloc)).into_vec();
    items.truncate(count);
    *serials = List::from_vec(items);
}
