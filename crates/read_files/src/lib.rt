//! The inputs of a run, read one after another in any of the formats: a `FileReader` takes one piece a turn,
//! and pushes the events that it fixes.
#![tactic(auto)]

mod byte_reader;
mod faults;
mod feeding;
mod laws;
mod open_file;
mod reader;
#[cfg(test)]
mod tests;

pub use laws::source_laws;
pub use reader::{FileReader, ReadTurn, can_read};
