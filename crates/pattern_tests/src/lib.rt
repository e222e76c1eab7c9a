//! Tests of patterns: the words and texts that are patterns, and what is replaced by them.
#![tactic(auto)]

mod found;
#[cfg(test)]
mod patterns;
