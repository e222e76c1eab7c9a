//! Readers of XTAB and PPRINT: formats in which an empty line ends a group of lines, an XTAB record or a
//! PPRINT table.
#![tactic(auto)]

mod cells;
mod laws;
mod line_step;
mod pprint;
mod reader;
mod row;
mod rules;
mod table;
mod words;
mod xtab;

pub use laws::prefix_laws;
pub use reader::{BlockReader, can_read};
