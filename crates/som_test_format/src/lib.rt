//! Tables of cases: their lines, and the files and the bytes that these stand for.
#![tactic(auto)]

mod contents;
mod expansion;
mod fields;
mod files;
mod rows;
mod single;
mod table;
mod words;
mod wrong;

pub use contents::Contents;
pub use files::{File, Files};
pub use rows::{Row, Rows, add_variables};
pub use single::single_bytes;
pub use table::{Kind, Line, case_len, lines_of, status_of, wanted_status};
pub use words::{first_word, number_of, words_in};
pub use wrong::Wrong;
