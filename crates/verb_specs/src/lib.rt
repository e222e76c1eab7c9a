//! The verbs of a plan, of any kind, with their options.
#![tactic(auto)]

mod verb_spec;

pub use verb_spec::VerbSpec;
