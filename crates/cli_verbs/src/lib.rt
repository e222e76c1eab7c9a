//! The options of each verb, made from its words.
#![tactic(auto)]

mod cat;
mod clash;
mod cut;
mod decimate;
mod fault;
mod fill_down;
mod fill_empty;
mod flatten;
mod gap;
mod grep;
mod gsub;
mod having_fields;
mod head;
mod json_parse;
mod json_stringify;
mod label;
mod merge_fields;
mod own_pattern;
mod partial;
mod pattern;
mod pattern_option;
mod rename;
mod reorder;
mod repeat;
mod reshape;
mod sec2gmt;
mod sec2gmtdate;
mod seqgen;
mod sort_within_records;
mod sparsify;
mod ssub;
mod sub;
mod sub_fields;
mod template;
mod unflatten;
mod unspace;
mod verb;

pub use clash::clash_of;
pub use fault::Fault;
pub use partial::partial_fault;
pub use verb::verb_of;
