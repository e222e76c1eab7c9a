//! What a run reads from and writes to: the traits `Inputs` and `Outputs`, whose contracts say what was taken
//! from each input and what each output holds, with implementations in memory and on the real system.
#![tactic(auto)]

mod calls;
mod inputs;
mod memory_inputs;
mod memory_outputs;
mod outputs;
mod real_inputs;
mod real_outputs;
mod sure_inputs;
mod sure_outputs;
#[cfg(test)]
mod tests;

pub use inputs::{Got, Inputs, Opened};
pub use memory_inputs::MemInputs;
pub use memory_outputs::MemOutputs;
pub use outputs::{Done, Outputs};
pub use real_inputs::RealInputs;
pub use real_outputs::{ErrorStream, RealOutputs};
pub use sure_inputs::SureInputs;
pub use sure_outputs::SureOutputs;
