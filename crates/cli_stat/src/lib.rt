//! The options of the verbs of statistics, made of their words.
#![tactic(auto)]

mod lists;
pub mod stats1;
pub mod step;
pub mod top;

pub use lists::{accumulators_after, steppers_after};
