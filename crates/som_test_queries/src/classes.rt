//! Questions on classes: versions, parents, descent, metaclasses, hooks, and search by name.

use crate::lines::{first_word, number_of};
use crate::making::{class_called, made_called};
use crate::telling::{told, told_class, told_classes, told_module, told_number, told_truth};
use crate::unasked::Unasked;
use som_classmgr::{Kernel, Linked};
use som_model::{List, Text};
use std::alloc::Global;

/// Tells whether a class is made.
pub fn tell_is_made(
    alloc: Global,
    kernel: &Kernel<Linked>,
    rest: &[u8],
    out: &mut List<u8>,
) -> Result<(), Unasked> {
    let class = class_called(alloc, kernel, rest)?;
    told_truth(out, kernel.is_made(class))?;
    Ok(())
}

/// Tells the version of a class.
pub fn tell_version(
    alloc: Global,
    kernel: &Kernel<Linked>,
    rest: &[u8],
    out: &mut List<u8>,
) -> Result<(), Unasked> {
    let class = class_called(alloc, kernel, rest)?;
    let (major, minor) = kernel.version(class);
    told_number(out, major)?;
    told(out, b".")?;
    told_number(out, minor)?;
    Ok(())
}

/// Tells the parents of a class.
pub fn tell_parents(
    alloc: Global,
    kernel: &Kernel<Linked>,
    rest: &[u8],
    out: &mut List<u8>,
) -> Result<(), Unasked> {
    let class = class_called(alloc, kernel, rest)?;
    told_classes(alloc, out, kernel, kernel.parents(class).as_slice())?;
    Ok(())
}

/// Tells whether a class is another or descends from it.
pub fn tell_descent(
    alloc: Global,
    kernel: &Kernel<Linked>,
    rest: &[u8],
    out: &mut List<u8>,
) -> Result<(), Unasked> {
    let (class, ancestor) = first_word(rest);
    let class = class_called(alloc, kernel, class)?;
    let ancestor = class_called(alloc, kernel, ancestor)?;
    told_truth(out, kernel.is_a(class, ancestor))?;
    Ok(())
}

/// Tells the metaclass of a class that is made.
pub fn tell_metaclass(
    alloc: Global,
    kernel: &Kernel<Linked>,
    rest: &[u8],
    out: &mut List<u8>,
) -> Result<(), Unasked> {
    let class = made_called(alloc, kernel, rest)?;
    told_class(alloc, out, kernel, kernel.metaclass(class))?;
    Ok(())
}

/// Tells the hooks of a class that is made.
pub fn tell_hooks(
    alloc: Global,
    kernel: &Kernel<Linked>,
    rest: &[u8],
    out: &mut List<u8>,
) -> Result<(), Unasked> {
    let class = made_called(alloc, kernel, rest)?;
    told_classes(alloc, out, kernel, kernel.hooks(class).as_slice())?;
    Ok(())
}

/// Tells the class that a search by name and version finds.
pub fn tell_found(
    alloc: Global,
    kernel: &Kernel<Linked>,
    rest: &[u8],
    out: &mut List<u8>,
) -> Result<(), Unasked> {
    let (name, rest) = first_word(rest);
    let (major, minor) = first_word(rest);
    let major = i32::try_from(number_of(major)?)?;
    let minor = i32::try_from(number_of(minor)?)?;
    let name = Text::from_slice(alloc, name)?;
    match kernel.find_class(&name, major, minor) {
        Some(class) => {
            told_module(out, kernel, class)?;
            told_class(alloc, out, kernel, class)?;
        }
        None => told(out, b"none")?,
    }
    Ok(())
}
