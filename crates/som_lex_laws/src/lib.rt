//! That a text which is put together of pieces has these as its tokens.
#![tactic(auto)]

mod pieces;

pub use pieces::pieces_law;
