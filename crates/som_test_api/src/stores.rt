//! A store in memory, with calls that fail.

use crate::memory::out_of_memory;
use som_io::{Got, Leaves, MemStore, Put, Store};
use som_model::{List, Text};
use std::test::Fail;

fn found(answer: &Got, bytes: &[u8]) -> bool {
    match answer {
        Got::Bytes(list) => list.as_slice() == bytes,
        _ => false,
    }
}

// Whether a put ends so, and leaves these bytes under the name, or none.
fn ends_so(
    store: &mut MemStore,
    name: &Text,
    bytes: &List<u8>,
    end: Put,
    left: Option<&[u8]>,
) -> bool {
    let ended = store.put(name, bytes);
    let got = store.get(name);
    ended == end
        && match left {
            Some(left) => found(&got, left),
            None => matches!(got, Got::Absent),
        }
}

#[test]
fn a_store_gives_what_was_put(rt: HostRuntime) -> Result<(), Fail> {
    let name = Text::from_slice(rt.alloc(), b"name").map_err(out_of_memory)?;
    let old = List::from_slice(rt.alloc(), b"old").map_err(out_of_memory)?;
    let new = List::from_slice(rt.alloc(), b"new").map_err(out_of_memory)?;
    let mut store = MemStore::new(rt.alloc());
    // Of the calls, counted from 0, three fail, and the last of them leaves nothing.
    assert!(rt; store.fail(0).is_ok());
    assert!(rt; store.fail(4).is_ok());
    assert!(rt; store.fail_put(7, Leaves::Nothing).is_ok());
    assert!(rt; ends_so(&mut store, &name, &old, Put::Failed, None));
    assert!(rt; ends_so(&mut store, &name, &old, Put::Done, Some(b"old")));
    assert!(rt; matches!(store.get(&name), Got::Failed));
    assert!(rt; ends_so(&mut store, &name, &new, Put::Done, Some(b"new")));
    assert!(rt; ends_so(&mut store, &name, &old, Put::Failed, None));
    Ok(())
}
