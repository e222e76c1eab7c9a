//! Texts in aligned columns: the lines of a record in XTAB, and blocks of records in PPRINT.
#![tactic(auto)]

mod block;
mod chunk;
mod decode;
mod encode;
mod padding;
mod pprint;
mod rows;
mod width;
mod widths;
mod xtab;

pub use block::Block;
pub use xtab::append_xtab;
