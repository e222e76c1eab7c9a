//! What the verbs of statistics share: the names of their accumulators and steppers, and the names of the fields that they
//! make.
#![tactic(auto)]

mod accumulator;
mod output;
mod stepper;

pub use accumulator::Accumulator;
pub use output::output_name;
pub use stepper::Stepper;
