//! The options of the shaping verbs without patterns, made of their words.
#![tactic(auto)]

pub mod join;
pub mod nest;
