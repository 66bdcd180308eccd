//! The lines that `show` has for a release with proxies, derived classes and great versions.

use crate::memory::out_of_memory;
use som_model::{Boxed, ClassFace, ClassKey, List, Module, NoMemory, Release, Text};
use som_show::shown;
use som_test_naive::{named, plain_class};
use std::alloc::Global;
use std::test::Fail;

fn proxy(alloc: Global) -> Result<ClassKey, NoMemory> {
    Ok(ClassKey::Proxy {
        of: Boxed::new(alloc, named(alloc, Module::Library, b"Bell")?)?,
    })
}

// The class that is derived from that of the proxies of bells alone.
fn derived(alloc: Global) -> Result<ClassKey, NoMemory> {
    let mut parents = List::new(alloc);
    parents.push(proxy(alloc)?)?;
    Ok(ClassKey::Derived { parents })
}

fn below_derived(alloc: Global) -> Result<List<ClassKey>, NoMemory> {
    let mut parents = List::new(alloc);
    parents.push(derived(alloc)?)?;
    Ok(parents)
}

fn bell(alloc: Global) -> Result<ClassFace, NoMemory> {
    let name = Text::from_slice(alloc, b"Bell")?;
    Ok(ClassFace {
        name,
        major: 4_294_967_295,
        minor: 10,
        parents: below_derived(alloc)?,
        metaclass: None,
        entries: List::new(alloc),
    })
}

fn bells(alloc: Global) -> Result<Release, NoMemory> {
    let bell = bell(alloc)?;
    let mut classes = List::new(alloc);
    classes.push(plain_class(alloc, bell, List::new(alloc)))?;
    Ok(Release { classes })
}

fn lines_of_bells(alloc: Global) -> Result<List<Text>, NoMemory> {
    let release = bells(alloc)?;
    shown(alloc, &release)
}

fn are_lines(lines: &[Text]) -> bool {
    match lines {
        [count, bell] => {
            count.is(b"library 1\n")
                && bell.is(b"class Bell 4294967295.10 : Derived(Proxy(Bell))\n")
        }
        _ => false,
    }
}

#[test]
fn made_classes_and_great_versions_are_shown(rt: HostRuntime) -> Result<(), Fail> {
    let lines = lines_of_bells(rt.alloc()).map_err(out_of_memory)?;
    assert!(rt; are_lines(lines.as_slice()));
    Ok(())
}
