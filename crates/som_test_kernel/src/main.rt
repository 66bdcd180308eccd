//! Asks linked kernels, lets their tasks go on by units, and makes their classes: `som_test_kernel WORD..`, where a word is `ask:FILE`, `rows:FILE`,
//! `lay:CLIENT:LIBRARY` or `make:CLIENT:LIBRARY`, or `alone`, `beside` or `fuels` before `:CLIENT:LIBRARY:DIGITS`, or
//! `turns:PATTERN:LIBRARY:CLIENT:CLIENT..`.
#![tactic(auto)]

mod alone;
mod answers;
mod beside;
mod cases;
mod clients;
mod fuels;
mod kernels;
mod laying;
mod levels;
mod pattern;
mod queries;
mod query_fault;
mod taking;
mod telling;
mod turning;

use cases::{Ground, ask_file};
use clients::turn_files;
use kernels::query_files;
use queries::Query;
use query_fault::QueryFault;
use std::env;
use taking::Turns;

// The first part of a word, and what stands behind it.
fn part(word: &str) -> Result<(&str, &str), QueryFault> {
    match word.split_once(':') {
        Some(parts) => Ok(parts),
        None => Err(QueryFault::Word),
    }
}

// Asks this of the kernel of a client and a library.
fn ask_pair(rt: &HostRuntime, names: &str, query: &Query<'_>) -> Result<(), QueryFault> {
    let (client, library) = part(names)?;
    query_files(rt, client, library, query)
}

// Lets tasks go on as a word says, which is told first.
fn take_turns(rt: &HostRuntime, word: &str, rest: &str, turns: Turns) -> Result<(), QueryFault> {
    println!(rt; "= {word}")?;
    let (client, rest) = part(rest)?;
    let (library, digits) = part(rest)?;
    let query = Query::Tasks(turns, digits.as_bytes());
    query_files(rt, client, library, &query)
}

// Gives turns to clients as a word says, which is told first.
fn give_turns(rt: &HostRuntime, word: &str, rest: &str) -> Result<(), QueryFault> {
    println!(rt; "= {word}")?;
    let (pattern, rest) = part(rest)?;
    let (library, clients) = part(rest)?;
    turn_files(rt, pattern, library, clients)
}

// Does what a word asks.
fn obey(rt: &HostRuntime, word: &str) -> Result<(), QueryFault> {
    let (kind, rest) = part(word)?;
    match kind.as_bytes() {
        b"ask" => ask_file(rt, Ground::Images, rest),
        b"rows" => ask_file(rt, Ground::Classes, rest),
        b"lay" => ask_pair(rt, rest, &Query::Numbered),
        b"make" => ask_pair(rt, rest, &Query::Made),
        b"alone" => take_turns(rt, word, rest, Turns::Alone),
        b"beside" => take_turns(rt, word, rest, Turns::Beside),
        b"fuels" => take_turns(rt, word, rest, Turns::Fuels),
        b"turns" => give_turns(rt, word, rest),
        _ => Err(QueryFault::Word),
    }
}

fn main(rt: HostRuntime) -> Result<(), QueryFault> {
    for word in env::args(&rt)?.skip(1) {
        obey(&rt, word.as_str())?;
    }
    Ok(())
}
