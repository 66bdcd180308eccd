//! The system's files as a store: a put goes into a new file, which is then renamed.

ghost use Rattle.std.specs.Prelude.{◌<◌, ◌^◌, None};

use som_io::{Got, Put, Store};
use som_model::{List, Text};
use std::alloc::{AllocError, Global};
use std::fs::OpenFile;
use std::io::{Read, Write};
use std::rt::Files;
use std::{fs, io};

/// How many bytes a file has at most; a longer one is a failure.
const MAX_FILE: u64 = 268_435_456;

/// How many names for a new file beside another are tried.
const MAX_NAMES: u32 = 100;

/// Why nothing was put.
#[derive(Drop)]
enum NotPut {
    /// Nothing was touched.
    NoMemory,
    Failed,
}

impl From<AllocError> for NotPut {
    fn from(_e: AllocError) -> NotPut {
        NotPut::NoMemory
    }
}

impl From<io::Error> for NotPut {
    fn from(e: io::Error) -> NotPut {
        if e.kind() == io::ErrorKind::OutOfMemory {
            NotPut::NoMemory
        } else {
            NotPut::Failed
        }
    }
}

/// The system's files under their paths. It tells no contents, and can't promise that no call fails.
#[derive(Drop)]
pub struct FileStore<'a, R> {
    runtime: &'a R,
    alloc: Global,
    faults: u64,
    ghost bounded: { faults < 2 ^ 64 },
}

impl<'a, R: Files> FileStore<'a, R> {
    pub fn new(runtime: &'a R, alloc: Global) -> FileStore<'a, R> {
        FileStore {
            runtime,
            alloc,
            faults: 0,
        }
    }

    // The bytes of a file; of a longer one, one byte more than a file has at most.
    fn read(&self, name: &Text) -> io::Result<Vec<u8>> {
        let file = fs::open(self.runtime, path_of(name)?)?;
        let mut bytes = Vec::new(self.alloc);
        file.take(MAX_FILE + 1).read_to_end(&mut bytes)?;
        Ok(bytes)
    }

    // The bytes go into a new file beside the old one, which then takes its name in one step: whoever opens the
    // name finds the old bytes or all of the new ones, also after a crash. What is no plain file, as a terminal,
    // is written to as it is.
    fn replace(&self, name: &Text, bytes: &List<u8>) -> Result<(), NotPut> {
        let path = path_of(name)?;
        if fs::metadata(self.runtime, path).is_ok_and(|found| !found.is_file()) {
            return match fs::write(self.runtime, path, bytes.as_slice()) {
                Ok(()) => Ok(()),
                Err(_) => Err(NotPut::Failed),
            };
        }
        for number in 0..MAX_NAMES {
            let beside = format!(in self.alloc; "{path}.{number}.new")?;
            match fs::File::create_new(self.runtime, beside.as_str()) {
                Ok(file) => return self.fill(file, beside.as_str(), path, bytes),
                Err(e) if e.kind() == io::ErrorKind::AlreadyExists => {}
                Err(e) => return Err(NotPut::from(e)),
            }
        }
        Err(NotPut::Failed)
    }

    // Nothing of the new file is left behind on a failure, which is no want of memory any more: a file was made.
    fn fill(
        &self,
        file: R::File,
        beside: &str,
        path: &str,
        bytes: &List<u8>,
    ) -> Result<(), NotPut> {
        if write_whole(file, bytes.as_slice()).is_ok()
            && fs::rename(self.runtime, beside, path).is_ok()
        {
            return Ok(());
        }
        let _ = fs::remove_file(self.runtime, beside);
        Err(NotPut::Failed)
    }
}

// The bytes reach the disk before the file is closed.
fn write_whole<F: Write + OpenFile + Drop>(file: F, bytes: &[u8]) -> io::Result<()> {
    let mut file = file;
    file.write_all(bytes)?;
    file.sync_all()
}

fn path_of(name: &Text) -> io::Result<&str> {
    match str::from_utf8(name.as_slice()) {
        Ok(path) => Ok(path),
        Err(_) => Err(io::Error::from(io::ErrorKind::InvalidFilename)),
    }
}

impl<R: Files> Store for FileStore<'_, R> {
    ghost files = { λ _. None };

    ghost faults = { λ store. store.faults };

    ghost calm = { λ _. ⊥ };

    fn get(&mut self, name: &Text) -> Got {
        match self.read(name) {
            Ok(bytes) => {
                if bytes.len() as u64 <= MAX_FILE {
                    return Got::Bytes(List::from_vec(bytes));
                }
            }
            Err(e) => match e.kind() {
                io::ErrorKind::NotFound => return Got::Absent,
                io::ErrorKind::OutOfMemory => return Got::NoMemory,
                _ => {}
            },
        }
        self.faults = self.faults.saturating_add(1);
        Got::Failed
    }

    fn put(&mut self, name: &Text, bytes: &List<u8>) -> Put {
        match self.replace(name, bytes) {
            Ok(()) => Put::Done,
            Err(NotPut::NoMemory) => Put::NoMemory,
            Err(NotPut::Failed) => {
                self.faults = self.faults.saturating_add(1);
                Put::Failed
            }
        }
    }

    ghost bounded = { λ store. store.bounded };
}
