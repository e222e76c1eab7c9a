//! The verb `join`: each record paired with those records of a left file that have the same texts in the join fields.
#![tactic(auto)]

mod join;
mod join_verb;
mod laws;
mod lefts;
mod naming;
mod pairing;
mod taking;

pub use join::Join;
pub use join_verb::JoinVerb;
pub use laws::join_laws;
