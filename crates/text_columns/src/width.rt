//! The width of a text in code points.
ghost use Rattle.std.specs.Prelude.{◌≡◌, ◌+◌, ◌<◌, ◌≤◌, drop, length, nat_lt};
ghost use Rattle.std.specs.List.{list_all};
ghost use Rattle.text_columns.specs.Pprint.{cell_text};
ghost use Rattle.text_columns.specs.Width.{code_points, points_of};

use bstr::decode_utf8;

/// What a cell with this text shows: a dash, where the text is empty.
#[inline(always)]
pub(crate) fn cell_text(text: &[u8]) -> &[u8]
    ensures { result.now ≡ cell_text text.now }
{
    if text.is_empty() { b"-" } else { text }
}

/// How many code points a cell with this text shows.
#[inline(always)]
pub(crate) fn cell_width(text: &[u8]) -> usize
    ensures { result ≡ code_points (cell_text text.now) }
{
    count_points(cell_text(text))
}

/// How many code points the text has; each byte that is part of none counts as one. ASCII needs no decoding.
#[inline(always)]
pub(crate) fn count_points(text: &[u8]) -> usize
    ensures count { result ≡ code_points text.now }
    ensures few { result ≤ length text.now }
{
    if is_ascii(text) {
        text.len()
    } else {
        count_pieces(text)
    }
}

#[inline(always)]
fn is_ascii(text: &[u8]) -> bool
    ensures { result ≡ list_all (λ b. nat_lt b 128) text.now }
{
    text.iter().all(|b| *b < 128)
}

/// How many code points the text has, each decoded.
#[inline(never)]
fn count_pieces(text: &[u8]) -> usize
    ensures count { result ≡ code_points text.now }
    ensures few { result ≤ length text.now }
{
    let mut count: usize = 0;
    let mut rest = text;
    while !rest.is_empty() {
        let (points, following) = next_piece(rest);
        count += points;
        rest = following;
    }
    count
}

/// How many code points the first piece counts, and the text after it.
#[inline]
fn next_piece(text: &[u8]) -> (usize, &[u8])
    requires { 0 < length text.now }
    ensures points { code_points text.now ≡ result.0 + code_points result.1.now }
    ensures few { result.0 + length result.1.now ≤ length text.now }
    ensures some { length result.1.now < length text.now }
{
    let (found, size) = decode_utf8(text);
    (points_of(found, size), following(text, size))
}

/// How many code points a piece counts: bytes that are none count each.
#[inline]
fn points_of(found: Option<char>, size: usize) -> usize
    ensures { result ≡ points_of (record { char = found; size = size }) }
{
    if found.is_some() { 1 } else { size }
}

/// The text from a place on.
#[inline]
fn following(text: &[u8], place: usize) -> &[u8]
    requires { place ≤ length text.now }
    ensures { result.now ≡ drop place text.now }
{
    &text[place..]
}
