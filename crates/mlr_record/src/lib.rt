//! Records: lists of fields with distinct names, flattened and unflattened.
#![tactic(auto)]

mod flatten;
mod laws;
mod node;
mod record;
pub mod split;
mod unflatten;

pub use laws::flattened_again;
pub use record::{Field, Record};
