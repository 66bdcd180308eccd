//! The instructions of nested loops and choices, one by one.

use crate::images::release_of;
use crate::memory::out_of_memory;
use som_code::{Code, Constant, Instruction, lay_out};
use som_model::{Body, Release};
use std::alloc::Global;
use std::test::Fail;

// A 1.0 under SOMObject, which introduces f, to a long: var i : long = 0; while (i < 3) { var a : long = i * 10; print a; if (a > 5) {
// var b : long = a + 1; while (b > 0) { var c : long = b - 1; print c; return c; } } i = i + 1; } return 0.
const NESTED: &[u8] = b"SOML\x01\0\x01\
    \0\x01A\0\0\0\x01\0\0\0\0\x01\0\0\0\0\x01\0\x01f\0\x01\0\
    \0\0\0\0\0\x03\x01\x01\x20\0\0\0\0\
    \x05\x28\x07\x24\0\0\x20\0\0\0\x03\0\0\0\x04\
    \x01\x01\x28\x02\x24\0\0\x20\0\0\0\x0a\x08\x24\0\x01\
    \x04\x28\x09\x24\0\x01\x20\0\0\0\x05\0\0\0\x02\
    \x01\x01\x28\0\x24\0\x01\x20\0\0\0\x01\
    \x05\x28\x09\x24\0\x02\x20\0\0\0\0\0\0\0\x03\
    \x01\x01\x28\x01\x24\0\x02\x20\0\0\0\x01\x08\x24\0\x03\x07\x24\0\x03\
    \0\0\0\0\
    \x02\0\0\x28\0\x24\0\0\x20\0\0\0\x01\
    \x07\x20\0\0\0\0\
    \0\0";

// The instructions that the body has.
#[derive(Clone, Copy)]
enum Operation {
    Push(i32),
    Get(usize),
    Set(usize),
    Cut(usize),
    Binary(u8),
    Jump(usize),
    Unless(usize),
    Turn,
    Print,
    Return,
    ReturnValue,
}

const LAID: [Operation; 51] = [
    // var i
    Operation::Push(0),
    Operation::Set(0),
    // while
    Operation::Jump(42),
    Operation::Turn,
    // var a
    Operation::Get(0),
    Operation::Push(10),
    Operation::Binary(2),
    Operation::Set(1),
    Operation::Get(1),
    Operation::Print,
    // if
    Operation::Get(1),
    Operation::Push(5),
    Operation::Binary(9),
    Operation::Unless(36),
    // var b
    Operation::Get(1),
    Operation::Push(1),
    Operation::Binary(0),
    Operation::Set(2),
    // the inner while
    Operation::Jump(29),
    Operation::Turn,
    // var c
    Operation::Get(2),
    Operation::Push(1),
    Operation::Binary(1),
    Operation::Set(3),
    Operation::Get(3),
    Operation::Print,
    Operation::Get(3),
    Operation::ReturnValue,
    Operation::Cut(3),
    // the condition of the inner while
    Operation::Get(2),
    Operation::Push(0),
    Operation::Binary(9),
    Operation::Unless(34),
    Operation::Jump(19),
    Operation::Cut(2),
    // past the else, which is empty
    Operation::Jump(37),
    Operation::Cut(2),
    // i = i + 1
    Operation::Get(0),
    Operation::Push(1),
    Operation::Binary(0),
    Operation::Set(0),
    Operation::Cut(1),
    // the condition of the while
    Operation::Get(0),
    Operation::Push(3),
    Operation::Binary(7),
    Operation::Unless(47),
    Operation::Jump(3),
    // return 0
    Operation::Push(0),
    Operation::ReturnValue,
    Operation::Cut(0),
    Operation::Return,
];

fn is_push(instruction: &Instruction, number: i32) -> bool {
    match instruction {
        Instruction::Push(Constant::Long(pushed)) => *pushed == number,
        _ => false,
    }
}

// Whether an instruction is the wanted one.
fn is(instruction: &Instruction, wanted: Operation) -> bool {
    match (wanted, instruction) {
        (Operation::Push(number), _) => is_push(instruction, number),
        (Operation::Get(local), Instruction::Get(got)) => *got == local,
        (Operation::Set(local), Instruction::Set(set)) => *set == local,
        (Operation::Cut(locals), Instruction::Cut(left)) => *left == locals,
        (Operation::Binary(operator), Instruction::Binary(found)) => *found == operator,
        (Operation::Jump(place), Instruction::Jump(to)) => *to == place,
        (Operation::Unless(place), Instruction::Unless(to)) => *to == place,
        (Operation::Turn, Instruction::Turn) => true,
        (Operation::Print, Instruction::Print) => true,
        (Operation::Return, Instruction::Return) => true,
        (Operation::ReturnValue, Instruction::ReturnValue) => true,
        _ => false,
    }
}

// The first place where the code isn't as wanted.
fn first_other(code: &Code, wanted: &[Operation]) -> Option<usize> {
    for (place, want) in wanted.iter().enumerate() {
        if place >= code.len() || !is(code.at(place), *want) {
            return Some(place);
        }
    }
    None
}

// The code of the only body of a release.
fn code_of(alloc: Global, release: &Release) -> Result<Code, Fail> {
    let [class] = release.classes.as_slice() else {
        return Err(Fail::from("one class"));
    };
    let [Body::User(block)] = class.bodies.as_slice() else {
        return Err(Fail::from("one body"));
    };
    Ok(lay_out(alloc, block, 0).map_err(out_of_memory)?)
}

fn nested_code(alloc: Global) -> Result<Code, Fail> {
    let release = release_of(alloc, NESTED)?;
    code_of(alloc, &release)
}

#[test]
fn a_loop_in_a_choice_in_a_loop_is_laid_out(rt: HostRuntime) -> Result<(), Fail> {
    let code = nested_code(rt.alloc())?;
    assert!(rt; code.len() == LAID.len());
    assert!(rt; first_other(&code, &LAID).is_none());
    Ok(())
}
