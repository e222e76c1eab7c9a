//! Separators in words.
ghost use Rattle.std.specs.Prelude.{◌≡◌, map};
ghost use Rattle.std.specs.List.{list_all, list_any};
ghost use Rattle.std.specs.Str.{bytes_eq};
ghost use Rattle.std.specs.Option.{option_map};
ghost use Rattle.cli_grammar.specs.Separators.{has_reserved_prefix, is_plain, is_reserved, is_reserved_name, is_short, named_separator, separator_in};

/// The longest separator, and the longest prefix of a comment, in bytes.
const LONGEST: usize = 16;

/// Names that Miller gives a separator of several bytes, or of a line end.
const RESERVED: [&[u8]; 10] = [
    b"newline",
    b"lf",
    b"lflf",
    b"cr",
    b"crcr",
    b"crlf",
    b"crlfcrlf",
    b"spaces",
    b"tabs",
    b"whitespace",
];

/// The separator that a word means. A name means its character, and `\t` a tab; another text of 1 to 16 bytes without
/// CR, LF and `"` means itself, unless it is a name that Miller gives a separator of several bytes or of a line end.
pub fn separator_in(word: &[u8]) -> Option<&[u8]>
    ensures { option_map (λ text. text.now) result ≡ separator_in word.now }
{
    if let Some(named) = named_separator(word) {
        return Some(named);
    }
    if is_reserved(word) || !is_short(word) {
        return None;
    }
    Some(word)
}

/// The character that a word names.
fn named_separator(word: &[u8]) -> Option<&'static [u8]>
    ensures { option_map (λ text. text.now) result ≡ named_separator word.now }
{
    if word == b"colon".as_slice() {
        Some(b":")
    } else if word == b"comma".as_slice() {
        Some(b",")
    } else if word == b"equals".as_slice() {
        Some(b"=")
    } else if word == b"pipe".as_slice() {
        Some(b"|")
    } else if word == b"semicolon".as_slice() {
        Some(b";")
    } else if word == b"slash".as_slice() {
        Some(b"/")
    } else if word == b"space".as_slice() {
        Some(b" ")
    } else if word == b"tab".as_slice() || word == b"\\t".as_slice() {
        Some(b"\t")
    } else {
        None
    }
}

/// Whether a word is a name of a separator that isn't one here.
fn is_reserved(word: &[u8]) -> bool
    ensures { result ≡ is_reserved word.now }
{
    is_reserved_name(word) || has_reserved_prefix(word)
}

/// Whether a word is one of the names that aren't separators here.
fn is_reserved_name(word: &[u8]) -> bool
    ensures { result ≡ is_reserved_name word.now }
{
    is_one_of(word, &RESERVED)
}

/// Whether a word is one of these names.
fn is_one_of(word: &[u8], names: &[&[u8]]) -> bool
    ensures { result
        ≡ list_any (λ name. bytes_eq word.now name) (map (λ name. name.now) names.now) }
{
    for name in names {
        if word == *name {
            return true;
        }
    }
    false
}

/// Whether a word begins like a name of an ASCII or a Unicode control character.
fn has_reserved_prefix(word: &[u8]) -> bool
    ensures { result ≡ has_reserved_prefix word.now }
{
    word.starts_with(b"ascii_") || word.starts_with(b"asv_") || word.starts_with(b"usv_")
}

/// Whether a text has 1 to 16 bytes, none of them CR, LF or `"`.
pub(crate) fn is_short(text: &[u8]) -> bool
    ensures { result ≡ is_short text.now }
{
    !text.is_empty() && text.len() <= LONGEST && all_plain(text)
}

/// Whether no byte of a text is CR, LF or `"`.
fn all_plain(text: &[u8]) -> bool
    ensures { result ≡ list_all is_plain text.now }
{
    text.iter().all(|byte| is_plain(*byte))
}

fn is_plain(byte: u8) -> bool
    ensures { result ≡ is_plain byte }
{
    !matches!(byte, b'\r' | b'\n' | b'"')
}
