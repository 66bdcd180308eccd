//! The faces of a release and of the kernel, as the rules see them.

use crate::images::{HELLO, release_of};
use crate::memory::out_of_memory;
use som_builtins::kernel_faces;
use som_compat::conforms;
use som_model::{Interface, NoMemory, Release};
use std::alloc::Global;
use std::test::Fail;

fn faces_conform(alloc: Global, release: &Release) -> Result<bool, NoMemory> {
    let interface = release.interface(alloc)?;
    conforms(alloc, &interface)
}

#[test]
fn the_faces_of_a_release_conform(rt: HostRuntime) -> Result<(), Fail> {
    let release = release_of(rt.alloc(), HELLO)?;
    assert!(rt; matches!(faces_conform(rt.alloc(), &release), Ok(true)));
    Ok(())
}

// Whether the copy of an interface is equal to it.
fn is_copied(alloc: Global, interface: &Interface) -> Result<bool, NoMemory> {
    let copy = interface.copy(alloc)?;
    Ok(copy.is(interface))
}

// SOMObject has no parent, and so the kernel's faces don't conform.
#[test]
fn the_kernel_is_copied_and_does_not_conform(rt: HostRuntime) -> Result<(), Fail> {
    let kernel = kernel_faces(rt.alloc()).map_err(out_of_memory)?;
    assert!(rt; matches!(is_copied(rt.alloc(), &kernel), Ok(true)));
    assert!(rt; matches!(conforms(rt.alloc(), &kernel), Ok(false)));
    Ok(())
}
