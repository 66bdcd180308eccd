//! Tests of the store over real files: what is put is got again.

use crate::FileStore;
use som_io::{Got, Put, Store};
use som_model::{List, NoMemory, Text};
use std::test::Fail;
use std::{env, fs};

// Memory was wanting.
#[derive(Debug, Drop)]
struct OutOfMemory;

fn out_of_memory(_e: NoMemory) -> OutOfMemory {
    OutOfMemory
}

#[test]
fn real_files_are_got_and_put(rt: HostRuntime) -> Result<(), Fail> {
    let alloc = rt.alloc();
    let folder = env::temp_dir(&rt)?;
    let path = format!(in alloc; "{}/som_adapter_test", folder.display())?;
    let name = Text::from_slice(alloc, path.as_bytes()).map_err(out_of_memory)?;
    let here = Text::from_slice(alloc, b"/").map_err(out_of_memory)?;
    let bytes = List::from_slice(alloc, b"bytes").map_err(out_of_memory)?;
    let mut store = FileStore::new(&rt, alloc);
    let _ = fs::remove_file(&rt, path.as_str());
    assert!(rt; matches!(store.get(&name), Got::Absent));
    assert!(rt; store.put(&name, &bytes) == Put::Done);
    let beside = format!(in alloc; "{path}.0.new")?;
    assert!(rt; !fs::exists(&rt, beside.as_str())?);
    let got = store.get(&name);
    assert!(rt;
        match &got {
            Got::Bytes(list) => list.as_slice() == b"bytes".as_slice(),
            _ => false,
        }
    );
    fs::remove_file(&rt, path.as_str())?;
    assert!(rt; matches!(store.get(&name), Got::Absent));
    assert!(rt; matches!(store.get(&here), Got::Failed));
    assert!(rt; store.put(&here, &bytes) == Put::Failed);
    Ok(())
}
