//! Why a command line is refused.

/// Why a command line isn't accepted: the word, counted from 1 after the program's name, and what is wrong with it.
#[derive(Debug, PartialEq, Eq, Drop)]
pub struct Refusal {
    pub word: u64,
    pub why: Why,
}

/// What is wrong with a word.
#[derive(Debug, PartialEq, Eq, Drop)]
pub enum Why {
    /// It stands where a verb has to follow, and there is none.
    NoVerb,
    /// It is no flag.
    UnknownFlag,
    /// It is no verb.
    UnknownVerb,
    /// It is an option or a verb whose argument is missing.
    MissingArgument,
    /// It is not a number, or out of range.
    BadNumber,
    /// It can't separate fields.
    BadSeparator,
    /// It can't be read as a pattern.
    BadPattern,
    /// It is a pattern that takes too much room.
    PatternSize,
    /// It is the verb after the sixty-fourth.
    TooManyVerbs,
    /// It contradicts an earlier word.
    Clash,
    /// No command line that is built continues with it.
    NotBuilt,
}
