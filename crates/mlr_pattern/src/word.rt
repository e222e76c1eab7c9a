//! Reads the pattern in a word of a command line.
ghost use Rattle.std.specs.Prelude.{◌≡◌};
ghost use Rattle.mlr_pattern.specs.Word.{shed, is_either_case};

/// A pattern as given by a word of a command line.
#[derive(Clone, Copy, Debug, PartialEq, Eq)]
pub struct PatternWord<'a> {
    /// The text of the pattern, without the quotes of the word.
    pub text: &'a [u8],
    /// Whether the pattern ignores the case of letters.
    pub either_case: bool,
}

/// The pattern that a word gives: `"..."` without its quotes, `"..."i` without its quotes and ignoring case,
/// or else the whole word.
pub fn pattern_word(word: &[u8]) -> PatternWord<'_>
    ensures text { result.text.now ≡ shed word.now }
    ensures either_case { result.either_case ≡ is_either_case word.now }
{
    match word {
        [b'"', text @ .., b'"'] => PatternWord {
            text,
            either_case: false,
        },
        [b'"', text @ .., b'"', b'i'] => PatternWord {
            text,
            either_case: true,
        },
        _ => PatternWord {
            text: word,
            either_case: false,
        },
    }
}
