//! What a case comes to: the answers of a kernel, or why there is none.

use crate::query_fault::QueryFault;
use crate::telling::tell_bytes;
use som_classmgr::{Kernel, LinkFault, Linked};
use som_model::{List, NoMemory, Text};
use som_test_queries::{Unasked, ask_all, told, told_number};

// A rule, after a word on whose it is, the class, and the member or name.
fn tell_rule(
    out: &mut List<u8>,
    front: &[u8],
    rule: u8,
    class: &Text,
    name: &Text,
) -> Result<(), NoMemory> {
    told(out, front)?;
    told_number(out, u32::from(rule))?;
    told(out, b" ")?;
    told(out, class.as_slice())?;
    told(out, b" ")?;
    told(out, name.as_slice())
}

// Tells why a pair isn't linked.
fn tell_fault(fault: &LinkFault, out: &mut List<u8>) -> Result<(), Unasked> {
    match fault {
        LinkFault::NotConforming { client, broken } => {
            let front: &[u8] = if *client {
                b" -> client S"
            } else {
                b" -> library S"
            };
            tell_rule(out, front, broken.rule, &broken.class, &broken.member)?;
        }
        LinkFault::Incompatible {
            rule,
            class,
            name,
            place,
        } => {
            tell_rule(out, b" -> incompatible K", *rule, class, name)?;
            told(out, b" ")?;
            told_number(out, *place)?;
        }
        LinkFault::NoMemory => return Err(Unasked::NoMemory),
    }
    told(out, b"\n")?;
    Ok(())
}

/// Prints why a pair isn't linked.
pub fn tell_refusal(rt: &HostRuntime, fault: &LinkFault) -> Result<(), QueryFault> {
    let mut out = List::new(rt.alloc());
    tell_fault(fault, &mut out)?;
    tell_bytes(rt, out.as_slice())?;
    Ok(())
}

/// Prints what a linked kernel answers to each question.
pub fn tell_answers(
    rt: &HostRuntime,
    kernel: &mut Kernel<Linked>,
    questions: &[u8],
) -> Result<(), QueryFault> {
    let alloc = rt.alloc();
    let mut out = List::new(alloc);
    ask_all(alloc, kernel, questions, &mut out)?;
    tell_bytes(rt, out.as_slice())?;
    Ok(())
}
