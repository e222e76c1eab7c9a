//! Values as texts, as verbs, writers and functions take them: what a value shows in a field of any format.
#![tactic(auto)]

mod showing;

pub use showing::{append_shown, held_bytes, held_text, shown};
