//! The verb `sort`.
#![tactic(auto)]

mod in_order;
mod laws;
mod sort;

pub use laws::sort_law;
pub use sort::{Sort, SortFlag, SortRows};
