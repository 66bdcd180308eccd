//! The files that a command changed in its store.

use som_io::{Got, MemStore, Store};
use som_model::{List, NoMemory, Text};
use som_test_format::{File, Files};
use std::alloc::Global;

// The store after a command, and the files that were found to be changed.
#[derive(Drop)]
struct After<'f> {
    alloc: Global,
    store: MemStore,
    files: &'f Files,
    failing: usize,
    changed: Vec<File>,
}

impl After<'_> {
    // What a name holds. Calls that were to fail and weren't made by the command are passed over.
    fn get(&mut self, name: &Text) -> Result<Option<List<u8>>, NoMemory> {
        for _ in 0..self.failing {
            match self.store.get(name) {
                Got::Failed => {}
                Got::Bytes(bytes) => return Ok(Some(bytes)),
                Got::Absent => return Ok(None),
                Got::NoMemory => return Err(NoMemory),
            }
        }
        match self.store.get(name) {
            Got::Bytes(bytes) => Ok(Some(bytes)),
            Got::NoMemory => Err(NoMemory),
            Got::Absent | Got::Failed => Ok(None),
        }
    }

    fn look(&mut self, name: &Text) -> Result<(), NoMemory> {
        let bytes = self.get(name)?;
        let same = match (self.files.get(name.as_slice()), &bytes) {
            (Some(before), Some(after)) => before.as_slice() == after.as_slice(),
            (None, None) => true,
            _ => false,
        };
        if !same {
            let name = name.copy(self.alloc)?;
            self.changed.push(File { name, bytes })?;
        }
        Ok(())
    }

    fn look_at_files(&mut self) -> Result<(), NoMemory> {
        for file in self.files.as_slice() {
            self.look(&file.name)?;
        }
        Ok(())
    }

    fn look_at_words(&mut self, words: &List<Text>) -> Result<(), NoMemory> {
        for word in words.as_slice() {
            self.look(word)?;
        }
        Ok(())
    }

    fn into_changed(self) -> Vec<File> {
        let After { changed, .. } = self;
        changed
    }
}

/// The files that a command left otherwise than they were, and those that have the names of its words.
pub fn changed_files(
    alloc: Global,
    store: MemStore,
    files: &Files,
    words: &List<Text>,
    failing: usize,
) -> Result<Vec<File>, NoMemory> {
    let mut after = After {
        alloc,
        store,
        files,
        failing,
        changed: Vec::new(alloc),
    };
    after.look_at_files()?;
    after.look_at_words(words)?;
    Ok(after.into_changed())
}
