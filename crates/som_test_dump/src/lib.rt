//! Tokens and trees of texts, and tower images, as lines of text, for tables of cases. `README.md` says how each is written.
#![tactic(auto)]

mod expressions;
mod interfaces;
mod kind;
mod lines;
mod show;
mod statements;
mod tokens;
mod tower;
mod words;

pub use show::shown;
