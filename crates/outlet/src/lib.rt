//! The end of a chain: an `Outlet` takes its events, and writes what standard output gets of them.
#![tactic(auto)]

mod laws;
mod outlet;
#[cfg(test)]
mod tests;

pub use laws::outlet_laws;
pub use outlet::{Let, Outlet};
