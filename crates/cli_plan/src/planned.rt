//! What the words of a command line come to.
use chain_core::{Plan, Refusal};
use mlr_value::Bytes;

/// What the words of a command line come to.
pub enum Planned {
    /// They mean this plan.
    Ok(Plan),
    /// They ask for this text.
    Say(Bytes),
    /// They aren't accepted.
    Refused(Refusal),
    /// There was no memory.
    NoMemory,
}

// Written by hand, so that the crates above call it instead of dropping the plan themselves.
impl Drop for Planned {
    fn drop(self) {
        match self {
            Planned::Ok(plan) => drop(plan),
            Planned::Say(text) => drop(text),
            Planned::Refused(refusal) => drop(refusal),
            Planned::NoMemory => {}
        }
    }
}
