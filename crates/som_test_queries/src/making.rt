//! Classes of a kernel by their names, and the question that makes them.

ghost use Rattle.som_class_kernel.specs.Linked.{IsMadeIn};
ghost use Rattle.som_meta.specs.Numbering.{IsNumbered};
ghost use Rattle.std.specs.Prelude.{IfOk};

use crate::telling::told_module;
use crate::unasked::Unasked;
use som_classmgr::{Kernel, Linked};
use som_model::{List, NoMemory};
use som_tables::ClassNo;
use som_trace::name_within;
use std::alloc::Global;

// Whether a class has this name, which may stand after the module that the class comes from.
fn is_called(
    alloc: Global,
    kernel: &Kernel<Linked>,
    class: ClassNo,
    word: &[u8],
) -> Result<bool, NoMemory>
    requires { IsNumbered kernel.now.classes class }
{
    let mut front = List::new(alloc);
    told_module(&mut front, kernel, class)?;
    let plain = match word.strip_prefix(front.as_slice()) {
        Some(rest) => rest,
        None => word,
    };
    Ok(match name_within(alloc, kernel, class, word.len())? {
        Some(name) => name.is(plain),
        None => false,
    })
}

/// The first class that is called so, which has a number.
pub fn class_called(alloc: Global, kernel: &Kernel<Linked>, word: &[u8]) -> Result<ClassNo, Unasked>
    ensures { IfOk result (IsNumbered kernel.now.classes) }
{
    for number in 0..kernel.count() {
        let class = ClassNo::new(number);
        if is_called(alloc, kernel, class, word)? {
            return Ok(class);
        }
    }
    Err(Unasked::Line)
}

/// The first class that is called so, which has to be made.
pub fn made_called(alloc: Global, kernel: &Kernel<Linked>, word: &[u8]) -> Result<ClassNo, Unasked>
    ensures made { IfOk result (IsMadeIn kernel.now) }
    ensures numbered { IfOk result (IsNumbered kernel.now.classes) }
{
    let class = class_called(alloc, kernel, word)?;
    if kernel.is_made(class) {
        Ok(class)
    } else {
        Err(Unasked::NotMade)
    }
}

// Makes all classes, one after the other.
fn reach_all(alloc: Global, kernel: &mut Kernel<Linked>) -> Result<(), NoMemory> {
    for number in 0..kernel.count() {
        kernel.reach(alloc, ClassNo::new(number))?;
    }
    Ok(())
}

/// Makes what is needed for a class, or for all.
pub fn reach(alloc: Global, kernel: &mut Kernel<Linked>, rest: &[u8]) -> Result<(), Unasked> {
    if rest == b"all".as_slice() {
        reach_all(alloc, kernel)?;
    } else {
        let class = class_called(alloc, kernel, rest)?;
        kernel.reach(alloc, class)?;
    }
    Ok(())
}
