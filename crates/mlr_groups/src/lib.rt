//! Records in groups, by the texts of some of their fields, by their names, or by the names and texts of all fields or of
//! all other fields: which group a record is in, and how many of its group came before it.
#![tactic(auto)]

mod group_by;
mod groups;
mod keys;
mod tallies;

pub use group_by::GroupBy;
pub use groups::Groups;
pub use keys::{KeyTable, append_text, append_texts};
pub use tallies::{Tallies, next_count};
