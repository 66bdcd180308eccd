//! Tests of what neither a clause nor a command shows. `README.md` says which.
#![tactic(auto)]

#[cfg(test)]
mod bodies;
#[cfg(test)]
mod flat_code;
#[cfg(test)]
mod hierarchies;
#[cfg(test)]
mod hosts;
#[cfg(test)]
mod images;
#[cfg(test)]
mod interfaces;
#[cfg(test)]
mod lines;
#[cfg(test)]
mod memory;
#[cfg(test)]
mod objects;
#[cfg(test)]
mod programs;
#[cfg(test)]
mod sinks;
#[cfg(test)]
mod stores;
#[cfg(test)]
mod tables;
#[cfg(test)]
mod worked;
