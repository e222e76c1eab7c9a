//! The names of the command line and of the language: tables in byte order, in which a name is searched.
#![tactic(auto)]

mod flag_names;
mod function_names;
mod separator_names;
mod table;
#[cfg(test)]
mod tests;
mod verb_names;

pub use flag_names::{FLAG_ROWS, main_flags};
pub use function_names::functions;
pub use separator_names::separators;
pub use table::Table;
pub use verb_names::verbs;
