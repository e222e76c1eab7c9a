//! Tests of plans: chains of verbs, runs over inputs and outputs in memory, and the parts by themselves.
#![tactic(auto)]

#[cfg(test)]
mod plan_parts;
mod plans;
