//! The left files of a run, which verbs that pair records hold: a `LeftReader` reads them one after another, each
//! whole, before any main input.
#![tactic(auto)]

mod faults;
mod laws;
mod left_file;
mod open_left;
mod reader;

pub use laws::left_laws;
pub use left_file::LeftFile;
pub use reader::{LeftReader, LeftTurn};
