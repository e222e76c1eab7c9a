//! A chain of verbs: its output for a list of events, and the code that runs it.
#![tactic(auto)]

mod chain;
#[cfg(test)]
mod chain_tests;
mod gate;
mod laws;
mod stage;

pub use chain::Chain;
pub use laws::chain_laws;
