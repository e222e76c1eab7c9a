//! Kinds of texts, and the options of inference.
ghost use Rattle.std.specs.Prelude.{◌≡◌, true, false};

/// What inference takes a text for: the result for a whole text, with the number of an int.
#[derive(Clone, Copy, Debug, PartialEq, Eq)]
pub enum Kind {
    /// No bytes.
    Empty,
    /// A text that is no number.
    Str,
    /// A whole number of 64 bits.
    Int(i64),
    /// A number with a point or an exponent, which this profile keeps as text.
    Frac,
    /// A whole number that 64 bits don't hold.
    Wide,
}

/// How texts are inferred: the main flags `-S` and `-O`. Where both are given, both hold.
#[derive(Clone, Copy, Debug, PartialEq, Eq)]
pub struct InferOpts {
    /// `-S`: every text that isn't empty is a string.
    pub none: bool,
    /// `-O`: digits with a leading zero are octal.
    pub octal: bool,
}

impl InferOpts {
    /// The options wherever the flags don't reach: in verbs, in functions, in the language.
    pub const fn plain() -> Self
        ensures { result ≡ record { none = false; octal = false } }
    {
        InferOpts {
            none: false,
            octal: false,
        }
    }
}
