//! Splits a text at spaces.
ghost use Rattle.std.specs.Prelude.{◌≡◌, ◌≤◌, [], drop, length, MatchOption};
ghost use Rattle.std.specs.List.{before_first, position_or_len, prefix_len};
ghost use Rattle.read_xtab_pprint.specs.Pprint.{words_of};
ghost use Rattle.read_xtab_pprint.specs.Words.{IsWordCut};
ghost use Rattle.read_xtab_pprint.specs.Xtab.{is_space, without_spaces};

/// The text without the spaces at its start.
pub(crate) fn without_spaces(text: &[u8]) -> &[u8]
    ensures { result.now ≡ without_spaces text.now }
{
    &text[spaces_before(text)..]
}

fn spaces_before(text: &[u8]) -> usize
    ensures count { result ≡ prefix_len is_space text.now }
    ensures inside { result ≤ length text.now }
{
    for (place, byte) in text.iter().enumerate() {
        if *byte != b' ' {
            return place;
        }
    }
    text.len()
}

/// The text before the first space, and the text from that space on.
pub(crate) fn cut_word(text: &[u8]) -> (&[u8], &[u8])
    ensures word { result.0.now ≡ before_first is_space text.now }
    ensures rest { result.1.now ≡ drop (length result.0.now) text.now }
{
    let end = space_place(text);
    (&text[..end], &text[end..])
}

fn space_place(text: &[u8]) -> usize
    ensures place { result ≡ position_or_len is_space text.now }
    ensures inside { result ≤ length text.now }
{
    for (place, byte) in text.iter().enumerate() {
        if *byte == b' ' {
            return place;
        }
    }
    text.len()
}

/// The first word of the text, and the text after it.
pub(crate) fn next_word(text: &[u8]) -> Option<(&[u8], &[u8])>
    ensures { MatchOption result (words_of text.now ≡ [])
        (λ cut. IsWordCut text.now cut.0.now cut.1.now) }
{
    let prefix = without_spaces(text);
    if prefix.is_empty() {
        return None;
    }
    Some(cut_word(prefix))
}
