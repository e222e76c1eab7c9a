//! The verbs that work on the values of a record: `fill-empty`, `flatten`, `json-parse`, `json-stringify`, `sec2gmt`,
//! `sec2gmtdate` and `unflatten`; and values as JSON texts and back.
#![tactic(auto)]

mod fill_empty;
mod flatten;
mod json_parse;
mod json_stringify;
mod json_values;
mod laws;
mod sec2gmt;
mod sec2gmtdate;
mod unflatten;

pub use fill_empty::FillEmpty;
pub use flatten::Flatten;
pub use json_parse::JsonParse;
pub use json_stringify::JsonStringify;
pub use json_values::{json_decode, json_encode};
pub use laws::decoded_law;
pub use sec2gmt::Sec2Gmt;
pub use sec2gmtdate::Sec2GmtDate;
pub use unflatten::Unflatten;
