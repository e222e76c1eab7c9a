//! Laws of the shaping verbs on whole lists of records, which no program stands on.
#![tactic(auto)]

mod nest;
mod reshape;

pub use nest::nest_law;
pub use reshape::reshape_law;
