//! Words, numbers and class names added to an answer.

ghost use Rattle.som_meta.specs.Numbering.{AreNumbered, IsNumbered};

use itoa::Buffer;
use som_classmgr::{Kernel, KeyView, Linked};
use som_model::{List, Module, NoMemory};
use som_tables::ClassNo;
use som_trace::name_within;
use std::alloc::Global;

/// A longer name isn't told.
const LONGEST_NAME: usize = 1_000;

/// Adds words to what is told.
pub fn told(out: &mut List<u8>, words: &[u8]) -> Result<(), NoMemory> {
    out.extend_from_slice(words)
}

/// Adds a number in decimal digits.
pub fn told_number(out: &mut List<u8>, number: u32) -> Result<(), NoMemory> {
    let mut buffer = Buffer::new();
    out.extend_from_slice(buffer.format(number).as_bytes())
}

/// Adds TRUE or FALSE.
pub fn told_truth(out: &mut List<u8>, is: bool) -> Result<(), NoMemory> {
    told(out, if is { b"TRUE" } else { b"FALSE" })
}

/// Adds the name of a class.
pub fn told_class(
    alloc: Global,
    out: &mut List<u8>,
    kernel: &Kernel<Linked>,
    class: ClassNo,
) -> Result<(), NoMemory>
    requires { IsNumbered kernel.now.classes class }
{
    match name_within(alloc, kernel, class, LONGEST_NAME)? {
        Some(name) => told(out, name.as_slice()),
        None => told(out, b"a long name"),
    }
}

/// Adds the names of classes, or that there are none.
pub fn told_classes(
    alloc: Global,
    out: &mut List<u8>,
    kernel: &Kernel<Linked>,
    classes: &[ClassNo],
) -> Result<(), NoMemory>
    requires { AreNumbered kernel.now.classes classes.now }
{
    if classes.is_empty() {
        return told(out, b"none");
    }
    for (place, class) in classes.iter().enumerate() {
        if place > 0 {
            told(out, b", ")?;
        }
        told_class(alloc, out, kernel, *class)?;
    }
    Ok(())
}

// Adds the name of a module.
fn told_home(out: &mut List<u8>, home: Module) -> Result<(), NoMemory> {
    match home {
        Module::Kernel => told(out, b"kernel"),
        Module::Library => told(out, b"library"),
        Module::Upper(level) => {
            told(out, b"upper")?;
            told_number(out, u32::from(level))
        }
        Module::Client => told(out, b"client"),
    }
}

/// Adds where a class comes from, as `library::`, and of a library above it also the level, as `upper2::`.
pub fn told_module(
    out: &mut List<u8>,
    kernel: &Kernel<Linked>,
    class: ClassNo,
) -> Result<(), NoMemory>
    requires { IsNumbered kernel.now.classes class }
{
    match kernel.key(class) {
        KeyView::Named { module, .. } => told_home(out, module)?,
        _ => told(out, b"made")?,
    }
    told(out, b"::")
}
