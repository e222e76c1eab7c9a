//! The verb `seqgen`, which reads no input: `SeqSource` gives records with the numbers from a start to a
//! stop.
#![tactic(auto)]

mod seq_spec;
mod source;
#[cfg(test)]
mod tests;

pub use seq_spec::SeqSpec;
pub use source::SeqSource;
