//! The verb `step`.
#![tactic(auto)]

mod groups;
mod making;
mod outputs;
mod step;
mod track;

pub use step::{Step, StepVerb};
