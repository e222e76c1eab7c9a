//! What the other crates mean: `specs/` has the definitions of a value, of inference, of records and of their
//! texts, over plain lists and trees; `src/` has the few plain types that they speak of.
#![tactic(auto)]

mod arith;
mod infer;
mod json;
mod memory;

pub use arith::{Op, Op1, Order};
pub use infer::{InferOpts, Kind};
pub use json::{JsonMark, JsonStyle};
pub use memory::NoMemory;
