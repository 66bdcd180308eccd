//! That classes which conform can be numbered, and what they are numbered to fits an image and is named back to them.
//! Proofs of other crates cite its laws, which are all in `proofs/`, and no code calls it.
#![tactic(auto)]
