//! The reader of JSON and JSON Lines.
#![tactic(auto)]

mod json;
mod laws;
mod listing;
mod record_state;
mod records;
mod stream;
mod strings;
mod text;

pub use json::{JsonReader, can_read};
pub use laws::{prefix_laws, stream_law};
