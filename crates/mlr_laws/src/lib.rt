//! Laws that tie crates together, and laws of definitions. They are contracts of functions that do nothing.
#![tactic(auto)]

mod paths;
mod sheets;

pub use paths::path_laws;
pub use sheets::sheet_laws;
