//! The breach that is told where a method's body is missing or too many.

use crate::images::{HELLO, release_of};
use crate::programs::{OWN, program_of};
use som_model::{ClassDecl, ClientProgram, List, Release};
use som_verify::{program_ok, release_ok};
use som_verify_classes::VerifyFault;
use std::alloc::Global;
use std::test::Fail;

/// What is taken from a class.
#[derive(Clone, Copy)]
enum Taken {
    Methods,
    Bodies,
}

fn take_from(alloc: Global, class: &mut ClassDecl, taken: Taken) {
    match taken {
        Taken::Methods => class.face.entries = List::new(alloc),
        Taken::Bodies => class.bodies = List::new(alloc),
    }
}

// The classes, with this taken from the first of them.
fn without(alloc: Global, classes: List<ClassDecl>, taken: Taken) -> List<ClassDecl> {
    let mut classes = classes.into_vec();
    if let Some(class) = classes.first_mut() {
        take_from(alloc, class, taken);
    }
    List::from_vec(classes)
}

// Whether it is told of a class that its bodies aren't those of its methods.
fn is_told(answer: Result<(), VerifyFault>, class: &[u8]) -> bool {
    match answer {
        Err(VerifyFault::Rule(broken)) => {
            broken.rule == 14 && broken.class.is(class) && broken.member.is(b"-")
        }
        _ => false,
    }
}

// Whether that is told of the library's class, once this is taken from it.
fn is_told_of_library(alloc: Global, taken: Taken) -> Result<bool, Fail> {
    let Release { classes } = release_of(alloc, HELLO)?;
    let release = Release {
        classes: without(alloc, classes, taken),
    };
    Ok(is_told(release_ok(alloc, &release), b"Hello"))
}

// Whether that is told of the client's class, once this is taken from it.
fn is_told_of_client(alloc: Global, taken: Taken) -> Result<bool, Fail> {
    let ClientProgram {
        base,
        classes,
        main,
    } = program_of(alloc, OWN)?;
    let program = ClientProgram {
        base,
        classes: without(alloc, classes, taken),
        main,
    };
    Ok(is_told(program_ok(alloc, &program), b"K"))
}

#[test]
fn each_method_has_a_body_and_each_body_a_method(rt: HostRuntime) -> Result<(), Fail> {
    let alloc = rt.alloc();
    assert!(rt; is_told_of_library(alloc, Taken::Methods)?);
    assert!(rt; is_told_of_library(alloc, Taken::Bodies)?);
    assert!(rt; is_told_of_client(alloc, Taken::Methods)?);
    assert!(rt; is_told_of_client(alloc, Taken::Bodies)?);
    Ok(())
}
