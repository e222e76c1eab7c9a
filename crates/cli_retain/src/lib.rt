//! The options of the retaining verbs, made of their words.
#![tactic(auto)]

pub mod count;
pub mod count_distinct;
pub mod count_similar;
pub mod frequent;
pub mod group_by;
pub mod sort;
pub mod tail;
pub mod uniq;
pub mod unsparsify;
