//! The verb `top`.
#![tactic(auto)]

mod best;
mod state;
mod top;

pub use state::TopState;
pub use top::{Top, TopOrder, TopVerb};
