//! The grammar of a command line: the tables of its flags and verbs, and how its words are read by them.
#![tactic(auto)]

mod flag_table;
mod given;
mod kind;
mod laws;
mod line;
mod number;
mod separator;
mod verb_table;

pub use flag_table::{FlagRow, Setting, flag_named, flag_rows};
pub use given::{Given, VerbWords};
pub use kind::{Kind, format_named};
pub use laws::grammar_laws;
pub use line::{Line, line_of};
pub use number::int_in;
pub use separator::separator_in;
pub use verb_table::{Group, OptionRow, VerbName, VerbRow};
