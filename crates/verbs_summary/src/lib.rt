//! The verbs that give statistics of the values of fields: `stats1` and `merge-fields`.
#![tactic(auto)]

mod gathering;
mod merge_fields;
mod putting;
mod stats1;

pub use merge_fields::{MergeFields, MergeFieldsVerb, MergeInputs};
pub use stats1::{GroupSummaries, Stats1, Stats1Verb};
