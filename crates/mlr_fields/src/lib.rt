//! Records built field by field, and names made distinct, in time proportional to the count of fields.
#![tactic(auto)]

mod distinct;
mod fields;
mod header;
mod marks;
mod name_index;
mod room;
mod suffixes;
#[cfg(test)]
mod tests;

pub use fields::Fields;
pub use header::Header;
pub use room::few;
