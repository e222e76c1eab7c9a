//! A run of a command: what its reader pushes passes through its verbs to its outlet.
#![tactic(auto)]

mod answer;
#[cfg(test)]
mod first_record;
mod reader;
mod serial;
#[cfg(test)]
mod tests;

pub use answer::Ended;
pub use mlr_event::{Refusal, Why};
pub use reader::Reader;
pub use serial::{Serial, SerialTurn};
