//! The directory of an image: the key of each class number, and the name of each slot.

ghost use Rattle.som_image_decode.specs.Naming.{
  kernel_directory,
  library_directory,
  name_in,
  names_in,
  release_directory,
  with_classes,
  with_face,
};
ghost use Rattle.som_model.specs.Class.{entry_name};
ghost use Rattle.std.specs.Prelude.{◌≡◌, map, IfOk, OnOk};

use som_builtins::kernel_faces;
use som_image_fields::{WireEntry, WireFace};
use som_model::{ClassFace, ClassKey, Entry, List, Module, NoMemory, Release, Text};
use std::alloc::Global;

/// What class numbers and slots stand for: the key of each class, and the names of its entries.
pub struct Directory {
    pub keys: List<ClassKey>,
    pub slots: List<List<Text>>,
}

impl Drop for Directory {
    fn drop(self) {
        let Directory { keys, slots } = self;
        drop(keys);
        drop(slots);
    }
}

impl Directory {
    /// The kernel's classes.
    pub fn of_kernel(alloc: Global) -> Result<Directory, NoMemory>
        ensures { IfOk result (λ directory. directory ≡ kernel_directory) }
    {
        let kernel = kernel_faces(alloc)?;
        let mut directory = Directory {
            keys: List::new(alloc),
            slots: List::new(alloc),
        };
        for face in kernel.classes.as_slice() {
            directory = directory.with_face(alloc, Module::Kernel, face)?;
        }
        Ok(directory)
    }

    /// These classes, and after them one of a module.
    pub fn with_face(
        self,
        alloc: Global,
        home: Module,
        face: &ClassFace,
    ) -> Result<Directory, NoMemory>
        ensures { IfOk result (λ directory. directory ≡ with_face self home face.now) }
    {
        let mut directory = self;
        directory.keys.push(ClassKey::Named {
            module: home,
            name: face.name.copy(alloc)?,
        })?;
        directory.slots.push(entry_names(alloc, &face.entries)?)?;
        Ok(directory)
    }

    /// These classes, and after them those of a module with these faces.
    pub fn with_classes(
        self,
        alloc: Global,
        home: Module,
        faces: &List<WireFace>,
    ) -> Result<Directory, NoMemory>
        ensures { IfOk result (λ directory. directory ≡ with_classes self home faces.now) }
    {
        let mut directory = self;
        for face in faces.as_slice() {
            directory.keys.push(ClassKey::Named {
                module: home,
                name: face.name.copy(alloc)?,
            })?;
            directory.slots.push(wire_names(alloc, &face.entries)?)?;
        }
        Ok(directory)
    }

    /// The kernel's classes and those of a library with these faces.
    pub fn of_library(alloc: Global, faces: &List<WireFace>) -> Result<Directory, NoMemory>
        ensures { IfOk result (λ directory. directory ≡ library_directory faces.now) }
    {
        Directory::of_kernel(alloc)?.with_classes(alloc, Module::Library, faces)
    }

    /// The kernel's classes and those of a release.
    pub fn of_release(alloc: Global, release: &Release) -> Result<Directory, NoMemory>
        ensures { IfOk result (λ directory. directory ≡ release_directory release.now) }
    {
        let mut directory = Directory::of_kernel(alloc)?;
        for class in release.classes.as_slice() {
            directory = directory.with_face(alloc, Module::Library, &class.face)?;
        }
        Ok(directory)
    }
}

fn entry_names(alloc: Global, entries: &List<Entry>) -> Result<List<Text>, NoMemory>
    ensures { IfOk result (λ names. names ≡ map entry_name entries.now) }
{
    let mut names = List::new(alloc);
    for entry in entries.as_slice() {
        names.push(name_of_entry(alloc, entry)?)?;
    }
    Ok(names)
}

fn name_of_entry(alloc: Global, entry: &Entry) -> Result<Text, NoMemory>
    ensures { IfOk result (λ name. name ≡ entry_name entry.now) }
{
    match entry {
        Entry::Introduced { name, .. } => name.copy(alloc),
        Entry::Moved { name, .. } => name.copy(alloc),
    }
}

fn wire_names(alloc: Global, entries: &List<WireEntry>) -> Result<List<Text>, NoMemory>
    ensures { IfOk result (λ names. names ≡ map name_in entries.now) }
{
    let mut names = List::new(alloc);
    for entry in entries.as_slice() {
        names.push(wire_name(alloc, entry)?)?;
    }
    Ok(names)
}

fn wire_name(alloc: Global, entry: &WireEntry) -> Result<Text, NoMemory>
    ensures { IfOk result (λ name. name ≡ name_in entry.now) }
{
    match entry {
        WireEntry::Introduced { name, .. } => name.copy(alloc),
        WireEntry::Moved { name, .. } => name.copy(alloc),
    }
}
