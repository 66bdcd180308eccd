//! That whatever texts stand for is what they say, form by form.
#![tactic(auto)]

mod laws;

pub use laws::{
    block_law, bodies_law, conforming_law, expression_law, keeping_law, lowest_law, saying_law,
    sources_law,
};
