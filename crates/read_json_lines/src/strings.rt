//! Strings while they are read.
ghost use Rattle.std.specs.Prelude.{◌≡◌, IfSome};
ghost use Rattle.read_json_lines.specs.Plain.{IsPlain, starts_quoted};

use crate::stream::following;
use mlr_json::{Lexeme, Scanned, StringBuilder, first_lexeme};

/// A string whose closing quote hasn't been read.
#[derive(Drop)]
pub(crate) struct OpenText {
    pub(crate) builder: StringBuilder,
    /// The place of its opening quote.
    pub(crate) place: u64,
}

/// The bytes between an opening quote and the closing one, and their number, if there is no escape among them
/// and the closing quote is within the text. An empty string isn't looked for.
#[inline(always)]
pub(crate) fn plain_text(text: &[u8]) -> Option<(&[u8], usize)>
    ensures { IfSome result (λ found. IsPlain text.now found.0.now found.1) }
{
    let Scanned::Found(Lexeme::Raw(raw), len) = first_lexeme(true, text) else {
        return None;
    };
    if starts_quoted(following(text, len)) {
        Some((raw, len))
    } else {
        None
    }
}

/// Whether the text begins with a quote.
#[inline]
fn starts_quoted(text: &[u8]) -> bool
    ensures { result ≡ starts_quoted text.now }
{
    match text {
        [b'"', ..] => true,
        _ => false,
    }
}
