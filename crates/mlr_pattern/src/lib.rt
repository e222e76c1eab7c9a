//! The patterns of verbs: the pattern that a word of a command line gives, which texts are patterns, and how
//! matches are replaced.
#![tactic(auto)]

mod patterns;
mod read;
mod replace;
mod values;
mod weight;
mod which;
mod word;

pub use patterns::Patterns;
pub use read::{PatternFault, read_pattern};
pub use regex::bytes::{Matcher, Regex as Pattern};
pub use replace::{append_replaced, matches, replaced, replaced_if_found};
pub use values::{ssub_value, sub_value};
pub use weight::is_heavy;
pub use which::Which;
pub use word::{PatternWord, pattern_word};
