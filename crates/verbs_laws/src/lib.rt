//! Laws of verbs on whole lists of records, which no program stands on.
#![tactic(auto)]

mod groups;
mod stats1;
mod top;
mod unsparsify;

pub use groups::group_laws;
pub use stats1::stats1_law;
pub use top::top_law;
pub use unsparsify::{unsparsify_fields_law, unsparsify_law};
