//! Lays out and asks towers of libraries, and compares their levels: `som_test_towers WORD..`, where a word is `ask:FILE` or `compare:FILE`.
#![tactic(auto)]

mod asking;
mod cases;
mod comparing;
mod reading;
mod refused;
mod telling;
mod tower;

use cases::{ask_file, compare_file};
use refused::TowerFault;
use std::env;

// The first part of a word, and the file that stands behind it.
fn part(word: &str) -> Result<(&str, &str), TowerFault> {
    match word.split_once(':') {
        Some(parts) => Ok(parts),
        None => Err(TowerFault::Word),
    }
}

// Does what a word asks.
fn obey(rt: &HostRuntime, word: &str) -> Result<(), TowerFault> {
    let (kind, path) = part(word)?;
    match kind.as_bytes() {
        b"ask" => ask_file(rt, path),
        b"compare" => compare_file(rt, path),
        _ => Err(TowerFault::Word),
    }
}

fn main(rt: HostRuntime) -> Result<(), TowerFault> {
    for word in env::args(&rt)?.skip(1) {
        obey(&rt, word.as_str())?;
    }
    Ok(())
}
