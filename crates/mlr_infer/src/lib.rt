//! The inference of texts from data: whether a text is empty, a string or a number, and of which kind.
#![tactic(auto)]

mod inference;

pub use inference::infer;
