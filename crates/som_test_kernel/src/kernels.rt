//! The kernel of two images, and the kernels of several clients with a library; no other file links images.

use crate::queries::{Query, answer, refuse};
use crate::query_fault::QueryFault;
use som_classmgr::{Kernel, LinkFault, Linked};
use som_link_limits::counted_law;
use som_model::List;
use std::alloc::Global;
use std::fs;
use std::rt::Files;

fn image<R: Files + AllocGlobal>(rt: &R, path: &str) -> Result<List<u8>, QueryFault> {
    Ok(List::from_vec(fs::read(rt, path)?))
}

// What linking the client and the library that two images spell comes to.
fn link(
    alloc: Global,
    library: &List<u8>,
    client: &List<u8>,
) -> Result<Result<Kernel<Linked>, LinkFault>, QueryFault> {
    counted_law();
    let library = som_libimage::decode(alloc, library)?;
    let client = som_cliimage::decode(alloc, client)?;
    Ok(Kernel::new()?.link(alloc, &library, &client))
}

/// Does what is asked of a linked kernel.
pub fn query_kernel(
    rt: &HostRuntime,
    kernel: Kernel<Linked>,
    query: &Query<'_>,
) -> Result<(), QueryFault> {
    let mut kernel = kernel;
    answer(rt, &mut kernel, query)
}

fn query_images(
    rt: &HostRuntime,
    library: &List<u8>,
    client: &List<u8>,
    query: &Query<'_>,
) -> Result<(), QueryFault> {
    match link(rt.alloc(), library, client)? {
        Ok(kernel) => query_kernel(rt, kernel, query),
        Err(fault) => refuse(rt, &fault, query),
    }
}

/// Links a client with a library, whose images two files have, and does what is asked of their kernel.
pub fn query_files(
    rt: &HostRuntime,
    client: &str,
    library: &str,
    query: &Query<'_>,
) -> Result<(), QueryFault> {
    let client = image(rt, client)?;
    let library = image(rt, library)?;
    query_images(rt, &library, &client, query)
}

// Adds the kernel of one client more.
fn add_kernel(
    alloc: Global,
    library: &List<u8>,
    client: &List<u8>,
    kernels: &mut List<Kernel<Linked>>,
) -> Result<(), QueryFault> {
    match link(alloc, library, client)? {
        Ok(kernel) => kernels.push(kernel)?,
        Err(_) => return Err(QueryFault::Link),
    }
    Ok(())
}

/// The kernel of each client with a library, by the files of their images; the clients' have colons between.
pub fn kernels_of(
    rt: &HostRuntime,
    library: &str,
    clients: &str,
) -> Result<List<Kernel<Linked>>, QueryFault> {
    let alloc = rt.alloc();
    let library = image(rt, library)?;
    let mut kernels = List::new(alloc);
    for client in clients.split(':') {
        add_kernel(alloc, &library, &image(rt, client)?, &mut kernels)?;
    }
    Ok(kernels)
}
