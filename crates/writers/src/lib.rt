//! Writers: records and texts become the text of an output, in one of nine formats. What a writer holds back of the
//! records so far is the open block of PPRINT and the line end of a record in a JSON list.
#![tactic(auto)]

mod cell;
mod csv;
mod dkvp;
mod escape;
mod fields;
mod form;
mod json;
mod jsonl;
mod keys;
mod laws;
mod markdown;
mod nidx;
mod options;
mod pprint;
mod rows;
mod shape;
mod stage;
mod state;
mod style;
mod tsv;
mod writer;
mod xtab;

pub use laws::{
    block_laws, growth_law, line_laws, list_laws, style_law, table_laws, text_laws, text_only_laws,
};
pub use options::WriteOpts;
pub use writer::Writer;
