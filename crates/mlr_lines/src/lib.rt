//! Splits a file into lines, whose bytes come in pieces that may be cut anywhere. A format says which events
//! a line has; `Lines` passes the lines to it.
#![tactic(auto)]

mod cut;
mod format;
mod laws;
mod lines;
#[cfg(test)]
mod lines_tests;
mod reader;
mod stage;

pub use cut::without_return;
pub use format::LineFormat;
pub use laws::line_laws;
pub use lines::Lines;
pub use reader::Reader;
