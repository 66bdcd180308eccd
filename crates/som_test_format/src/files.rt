//! The files of a case, with what each name held earlier.

use som_model::{List, NoMemory, Text};
use std::alloc::Global;
use std::mem;

/// What a name holds, or that it holds nothing any more.
#[derive(Drop)]
pub struct File {
    pub name: Text,
    pub bytes: Option<List<u8>>,
}

impl File {
    pub fn copy(&self, alloc: Global) -> Result<File, NoMemory> {
        let bytes = match &self.bytes {
            Some(bytes) => Some(bytes.copy(alloc)?),
            None => None,
        };
        Ok(File {
            name: self.name.copy(alloc)?,
            bytes,
        })
    }
}

/// The files of a case in the order in which they were put. A later one of the same name takes the place of an earlier one, so the
/// files at an earlier time are a front of the list.
#[derive(Drop)]
pub struct Files {
    entries: Vec<File>,
}

impl Files {
    pub fn new(alloc: Global) -> Files {
        Files {
            entries: Vec::new(alloc),
        }
    }

    pub fn as_slice(&self) -> &[File] {
        self.entries.as_slice()
    }

    pub fn put(&mut self, file: File) -> Result<(), NoMemory> {
        self.entries.push(file)?;
        Ok(())
    }

    /// Takes away all files but the first so many.
    pub fn back_to(&mut self, len: usize) {
        self.entries.truncate(len);
    }

    /// All files, which are taken away.
    pub fn take_all(&mut self, alloc: Global) -> Vec<File> {
        mem::replace(&mut self.entries, Vec::new(alloc))
    }

    /// What a name holds.
    pub fn get(&self, name: &[u8]) -> Option<&List<u8>> {
        held_by(self.entries.as_slice(), name)
    }

    /// What a name held when there were so many files.
    pub fn get_among(&self, len: usize, name: &[u8]) -> Option<&List<u8>> {
        held_by(self.entries.as_slice().get(..len)?, name)
    }
}

// What a name holds, by the last file of that name.
fn held_by<'a>(files: &'a [File], name: &[u8]) -> Option<&'a List<u8>> {
    for file in files.iter().rev() {
        if file.name.is(name) {
            return file.bytes.as_ref();
        }
    }
    None
}
