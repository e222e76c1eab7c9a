//! The verbs of statistics: `Spec` is a verb with its options, and `StatVerb` is the verb in a chain. Each verb has a file of its
//! own in one of the crates below.
#![tactic(auto)]

mod running;
mod spec;
mod verb;

pub use spec::Spec;
pub use stat_base::{Accumulator, Stepper};
pub use verb::StatVerb;
pub use verbs_step::Step;
pub use verbs_summary::{MergeFields, MergeInputs, Stats1};
pub use verbs_top::{Top, TopOrder};
