//! Readers of DKVP, NIDX and Markdown: formats in which each line is a record, or a row of a table.
#![tactic(auto)]

mod block;
mod cells;
mod dkvp;
mod laws;
mod line_step;
mod markdown;
mod nidx;
mod reader;
mod room;
mod row;
mod rules;

pub use laws::prefix_laws;
pub use reader::{LineReader, can_read};
