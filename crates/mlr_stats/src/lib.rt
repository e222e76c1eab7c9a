//! Statistics of the values of a field: what they are, what is kept of the values for them, and the fields that they make.
#![tactic(auto)]

mod extremes;
mod more;
mod needs;
mod statistics;
mod summary;
mod text_counts;

pub use needs::Needs;
pub use statistics::Statistics;
pub use summary::Summary;
