//! JSON texts of values, after RFC 8259: what a value is written as, and which value a text is read as, or where it
//! has its first fault. Texts are read by lexemes, which a reader of streams can share, with a stack of frames.
#![tactic(auto)]

mod escape;
mod frame;
mod laws;
mod lexeme;
mod machine;
mod read;
mod steps;
mod string;
mod token;
mod word;
mod write;

pub use escape::append_json_string;
pub use frame::{Frame, Phase};
pub use laws::{found_stays, one_outcome, written_is_read};
pub use lexeme::{Lexeme, Scanned, blank_len, first_lexeme, word_len};
pub use machine::{Machine, Went};
pub use read::{JsonRead, read_json_value};
pub use string::StringBuilder;
pub use word::word_value;
pub use write::{append_json_field, append_json_value, json_text};
