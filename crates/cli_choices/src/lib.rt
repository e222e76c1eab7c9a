//! What the options of a verb say, or a default: counts, texts, separators and lists of names in words.
#![tactic(auto)]

mod choice;
mod names;

pub use choice::{
    argument_of, count_or, following, int_or, names_after, number_after, number_or, separator_or,
    text_or, word_or,
};
pub use names::{all_names, given_names, names_in};
