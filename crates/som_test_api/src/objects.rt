//! An old reference after its object's key is used again in the object store.

ghost use Rattle.som_objects.specs.Objects.{IsKnown, IsGone};
ghost use Rattle.std.specs.Prelude.{◌≡◌, [], IfOk, length};

use som_model::{List, NoMemory};
use som_objects::{Cell, Gone, ObjRef, ObjectStore};
use som_tables::ClassNo;
use std::alloc::Global;
use std::test::Fail;

fn one_cell(alloc: Global, number: i32) -> Result<List<Cell>, NoMemory>
    ensures { IfOk result (λ cells. length cells ≡ 1) }
{
    let mut cells = List::new(alloc);
    cells.push(Cell::Long(number))?;
    Ok(cells)
}

fn is_long(cell: Result<&Cell, Gone>, number: i32) -> bool {
    match cell {
        Ok(Cell::Long(held)) => *held == number,
        _ => false,
    }
}

fn refuses(store: &mut ObjectStore, object: &ObjRef) -> bool
    requires known { IsKnown store.old object.now }
    requires gone { IsGone store.old object.now }
{
    let is_read = store.class(object).is_ok() || store.read(object, 0).is_ok();
    let is_written = store.write(object, 0, Cell::Nil).is_ok();
    let is_freed = store.free(object).is_ok();
    !is_read && !is_written && !is_freed
}

// Whether an object gets the key of one that was freed, and the old reference doesn't reach it.
fn keeps_apart(alloc: Global, store: &mut ObjectStore) -> Result<bool, NoMemory>
    requires { store.old ≡ [] }
{
    let cells = one_cell(alloc, 5)?;
    let old = store.make(ClassNo::new(1), cells)?;
    match store.free(&old) {
        Ok(()) => {}
        Err(_) => return Ok(false),
    }
    let cells = one_cell(alloc, 9)?;
    let new = store.make(ClassNo::new(2), cells)?;
    let is_reused = new.key == old.key && is_long(store.read(&new, 0), 9);
    Ok(is_reused && refuses(store, &old))
}

#[test]
fn an_old_reference_does_not_reach_the_object_under_its_key(rt: HostRuntime) {
    let mut store = ObjectStore::new(rt.alloc());
    assert!(rt; matches!(keeps_apart(rt.alloc(), &mut store), Ok(true)));
}
