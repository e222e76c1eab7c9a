//! Arithmetic on whole numbers of 64 bits, which has the exact result of each operator or none.
#![tactic(auto)]

mod division;
mod power;
mod results;
mod shifts;
#[cfg(test)]
mod tests;

pub use results::{result_of, result1_of};
