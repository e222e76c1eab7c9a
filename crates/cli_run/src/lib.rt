//! The top call of `mlr`: it takes the words of the command line and the inputs and outputs, runs the command, and
//! says how the run ended. What the words mean is the plan of cli_plan.
#![tactic(auto)]

mod message;
mod run;
mod say;
#[cfg(test)]
mod test_rows;
#[cfg(test)]
mod tests;
#[cfg(test)]
mod worked_rows;

pub use chain_core::{Ended, Refusal, Why};
pub use run::{run_alone, run_mlr};
