//! How many classes have numbers, and how many are made.

use crate::query_fault::QueryFault;
use som_classmgr::{Kernel, Linked};
use som_model::NoMemory;
use som_tables::ClassNo;
use std::alloc::Global;

// Makes all classes.
fn make_all(alloc: Global, linked: &mut Kernel<Linked>) -> Result<(), NoMemory> {
    for number in 0..linked.count() {
        linked.reach(alloc, ClassNo::new(number))?;
    }
    Ok(())
}

/// Tells how many classes have numbers.
pub fn tell_numbered(rt: &HostRuntime, kernel: &Kernel<Linked>) -> Result<(), QueryFault> {
    println!(rt; "numbered {}", kernel.count())?;
    Ok(())
}

/// Tells how many classes are made.
pub fn tell_made(rt: &HostRuntime, kernel: &Kernel<Linked>) -> Result<(), QueryFault> {
    println!(rt; "made {}", kernel.made())?;
    Ok(())
}

/// Tells how many have numbers, makes all of them, one after the other, and tells how many are made.
pub fn tell_all(rt: &HostRuntime, kernel: &mut Kernel<Linked>) -> Result<(), QueryFault> {
    tell_numbered(rt, &*kernel)?;
    make_all(rt.alloc(), kernel)?;
    tell_made(rt, &*kernel)
}
