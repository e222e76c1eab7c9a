//! The reader of CSV (RFC 4180) and TSV.
#![tactic(auto)]

mod csv;
mod fields;
mod heading;
mod laws;
mod line_step;
mod plain;
mod reader;
mod records;
mod row;
mod row_outcome;
mod rules;
mod separators;
mod tsv;

pub use laws::prefix_laws;
pub use reader::{CsvReader, can_read};
