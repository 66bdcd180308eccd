//! Names of a release: the classes that introduce each, and tables of names in which the first place counts.
#![tactic(auto)]

mod entries;
mod introducers;
mod places;
mod ranking;
mod search;

pub use entries::{entry_named, entry_places};
pub use introducers::{Introducers, introducers_of};
pub use places::{Noted, Places, first_place, note, place_table};
pub use ranking::{Ranking, first_introducer, ranking_of};
pub use search::{MethodSearch, marked_rows, only_introducer};
