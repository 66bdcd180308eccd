//! What may be asked of a linked kernel.

use crate::answers::{tell_answers, tell_refusal};
use crate::laying::{tell_all, tell_made, tell_numbered};
use crate::query_fault::QueryFault;
use crate::taking::{Turns, take_on};
use som_classmgr::{Kernel, LinkFault, Linked};

/// What is asked of the kernel of a client and a library.
#[derive(Clone, Copy)]
pub enum Query<'a> {
    /// Its answers to questions, one on a line, or why there is no kernel.
    Questions(&'a [u8]),
    /// How many classes have numbers.
    Numbered,
    /// That, and how many are made when all are.
    Made,
    /// What tasks tell that go on by the units of digits, and how many classes are made then.
    Tasks(Turns, &'a [u8]),
}

/// Does what is asked of a linked kernel.
pub fn answer(
    rt: &HostRuntime,
    kernel: &mut Kernel<Linked>,
    query: &Query<'_>,
) -> Result<(), QueryFault> {
    match query {
        Query::Questions(questions) => tell_answers(rt, kernel, questions),
        Query::Numbered => tell_numbered(rt, kernel),
        Query::Made => tell_all(rt, kernel),
        Query::Tasks(turns, digits) => {
            take_on(rt, *turns, kernel, digits)?;
            tell_made(rt, &*kernel)
        }
    }
}

/// Does what is asked where there is no kernel: that is an answer where there are questions, and else a fault.
pub fn refuse(rt: &HostRuntime, fault: &LinkFault, query: &Query<'_>) -> Result<(), QueryFault> {
    match query {
        Query::Questions(_) => tell_refusal(rt, fault),
        _ => Err(QueryFault::Link),
    }
}
