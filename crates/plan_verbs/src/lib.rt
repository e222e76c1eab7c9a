//! A plan says what a command reads, through which verbs its records go, and how they are written. Here are its left files,
//! and its verbs as a `Chain`.
#![tactic(auto)]

mod chain;
mod lefts;
mod one_of;
mod plan;
mod verb;

pub use chain::Chain;
pub use lefts::{Lefts, left_files_of, lefts_for};
pub use one_of::OneOf;
pub use plan::{Plan, StyleList, VerbList};
pub use verb::Verb;
