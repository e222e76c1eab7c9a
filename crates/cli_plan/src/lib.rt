//! What the words of a command line come to: the plan that they mean, a text that they ask for, or why they are refused.
#![tactic(auto)]

mod clash;
mod flag;
mod inputs;
mod laws;
mod options;
mod planned;
mod planning;
mod say;
mod settings;
#[cfg(test)]
mod tests;

pub use laws::refusal_laws;
pub use planned::Planned;
pub use planning::plan;
