//! The lexemes of a JSON text, byte by byte.
ghost use Rattle.std.specs.Prelude.{◌≡◌, ◌+◌, ◌*◌, ◌<◌, ◌≤◌, ◌==◌, ◌&&◌, not, nat_lt, length, map, take};
ghost use Rattle.std.specs.List.{prefix_len};
ghost use Rattle.std.specs.Simd.Lanes.{mask_l};
ghost use Rattle.mlr_spec.specs.Infer.{digit, number};
ghost use Rattle.mlr_spec.specs.JsonTokens.{is_blank, is_word_byte, is_raw, is_hex, mark_of, escape_of, lexeme_unmarked, lexeme_outside, lexeme_inside, lexeme_of_escape, lexeme_of_unit, first_lexeme};
ghost use Rattle.mlr_json.specs.Seen.{scan_seen, IsWithin, EscapeIs, ends_raw};

use memchr::memchr2;
use mlr_spec::JsonMark;
use std::simd::prelude::*;

/// What a JSON text is read as, byte by byte. It borrows from the text.
#[derive(Clone, Copy, Debug, PartialEq, Eq)]
pub enum Lexeme<'a> {
    /// Spaces, tabs and line ends.
    Blank,
    /// One of the six marks.
    Mark(JsonMark),
    /// Bytes of a word: a number, or a name such as `true`.
    Word(&'a [u8]),
    /// The quote that begins a string or ends it.
    Quote,
    /// Bytes that a string holds.
    Raw(&'a [u8]),
    /// A code unit of UTF-16 that a string names by an escape.
    Unit(u16),
}

/// The start of a text.
#[derive(Clone, Copy, Debug, PartialEq, Eq)]
pub enum Scanned<'a> {
    /// A lexeme of so many bytes. A blank, a word or raw bytes that reach the text's end may continue after
    /// it.
    Found(Lexeme<'a>, usize),
    /// No bytes, or an escape that isn't whole.
    Begun,
    /// A byte at this offset that isn't allowed there.
    Bad(usize),
}

/// The lexeme at the start of a text, within a string or outside. It doesn't allocate.
#[inline(always)]
pub fn first_lexeme(inside: bool, text: &[u8]) -> Scanned<'_>
    ensures prefix { scan_seen result ≡ first_lexeme inside text.now }
    ensures within { IsWithin (length text.now) result }
{
    if inside {
        lexeme_inside(text)
    } else {
        lexeme_outside(text)
    }
}

#[inline(always)]
#[tactic(auto, unfolding(mlr_spec::specs::JsonTokens::lexeme_outside))]
fn lexeme_outside(text: &[u8]) -> Scanned<'_>
    ensures prefix { scan_seen result ≡ lexeme_outside text.now }
    ensures within { IsWithin (length text.now) result }
{
    match text {
        [] => Scanned::Begun,
        [byte, ..] => match mark_of(*byte) {
            Some(mark) => Scanned::Found(Lexeme::Mark(mark), 1),
            None => lexeme_unmarked(text),
        },
    }
}

#[inline(always)]
fn mark_of(byte: u8) -> Option<JsonMark>
    ensures { result ≡ mark_of byte }
{
    match byte {
        b'{' => Some(JsonMark::BeginMap),
        b'}' => Some(JsonMark::EndMap),
        b'[' => Some(JsonMark::BeginArray),
        b']' => Some(JsonMark::EndArray),
        b':' => Some(JsonMark::Colon),
        b',' => Some(JsonMark::Comma),
        _ => None,
    }
}

/// What is between marks.
#[inline(always)]
fn lexeme_unmarked(text: &[u8]) -> Scanned<'_>
    requires { 0 < length text.now }
    ensures prefix { scan_seen result ≡ lexeme_unmarked text.now }
    ensures within { IsWithin (length text.now) result }
{
    let first = text[0];
    if is_blank(first) {
        return Scanned::Found(Lexeme::Blank, blank_len(text));
    }
    if first == b'"' {
        return Scanned::Found(Lexeme::Quote, 1);
    }
    if is_word_byte(first) {
        let len = word_len(text);
        return Scanned::Found(Lexeme::Word(&text[..len]), len);
    }
    Scanned::Bad(0)
}

#[inline(always)]
fn is_blank(byte: u8) -> bool
    ensures { result ≡ is_blank byte }
{
    byte == b' ' || byte == b'\t' || byte == b'\n' || byte == b'\r'
}

#[inline(always)]
fn is_word_byte(byte: u8) -> bool
    ensures { result ≡ is_word_byte byte }
{
    matches!(byte, b'a'..=b'z' | b'A'..=b'Z' | b'0'..=b'9' | b'+' | b'-' | b'.' | b'_')
}

/// How many blanks a text begins with.
#[inline(always)]
pub fn blank_len(text: &[u8]) -> usize
    ensures { result ≡ prefix_len is_blank text.now }
{
    for (place, byte) in text.iter().enumerate() {
        if !is_blank(*byte) {
            return place;
        }
    }
    text.len()
}

/// How many bytes of a word a text begins with.
#[inline(always)]
pub fn word_len(text: &[u8]) -> usize
    ensures { result ≡ prefix_len is_word_byte text.now }
{
    for (place, byte) in text.iter().enumerate() {
        if !is_word_byte(*byte) {
            return place;
        }
    }
    text.len()
}

/// How many bytes come before the first quote or backslash. Most strings are short, so it looks at 16 bytes at once.
#[inline(always)]
pub(crate) fn raw_len(text: &[u8]) -> usize
    ensures { result ≡ prefix_len is_raw text.now }
{
    if text.len() >= 16 {
        let place = raw_ends(u8x16::from_slice(text)).trailing_zeros() as usize;
        if place < 16 {
            return place;
        }
    }
    match memchr2(b'"', b'\\', text) {
        Some(place) => place,
        None => text.len(),
    }
}

/// A bit for each byte, which is set for a quote or a backslash.
#[inline(always)]
fn raw_ends(bytes: u8x16) -> u64
    ensures { result ≡ mask_l (map ends_raw bytes) }
{
    (bytes.simd_eq(u8x16::splat(b'"')) | bytes.simd_eq(u8x16::splat(b'\\'))).to_bitmask()
}

#[inline(always)]
#[tactic(auto, unfolding(mlr_spec::specs::JsonTokens::lexeme_inside))]
fn lexeme_inside(text: &[u8]) -> Scanned<'_>
    ensures prefix { scan_seen result ≡ lexeme_inside text.now }
    ensures within { IsWithin (length text.now) result }
{
    match text {
        [] => Scanned::Begun,
        [b'"', ..] => Scanned::Found(Lexeme::Quote, 1),
        [b'\\', following @ ..] => lexeme_of_escape(following),
        _ => {
            let len = raw_len(text);
            Scanned::Found(Lexeme::Raw(&text[..len]), len)
        }
    }
}

/// What follows a backslash. The lengths count the backslash too.
fn lexeme_of_escape(text: &[u8]) -> Scanned<'_>
    ensures prefix { scan_seen result ≡ lexeme_of_escape text.now }
    ensures within { IsWithin (1 + length text.now) result }
{
    match text {
        [] => Scanned::Begun,
        [b'u', digits @ ..] => lexeme_of_unit(digits),
        [letter, ..] => match escape_of(*letter) {
            Some(byte) => Scanned::Found(Lexeme::Raw(byte), 2),
            None => Scanned::Bad(1),
        },
    }
}

/// The byte that an escape letter represents.
fn escape_of(letter: u8) -> Option<&'static [u8]>
    ensures { EscapeIs letter result }
{
    match letter {
        b'"' => Some(b"\""),
        b'\\' => Some(b"\\"),
        b'/' => Some(b"/"),
        b'b' => Some(&[8]),
        b'f' => Some(&[12]),
        b'n' => Some(b"\n"),
        b'r' => Some(b"\r"),
        b't' => Some(b"\t"),
        _ => None,
    }
}

/// What follows `\u`. The lengths count these two bytes too.
fn lexeme_of_unit(text: &[u8]) -> Scanned<'_>
    ensures prefix { scan_seen result ≡ lexeme_of_unit text.now }
    ensures within { IsWithin (2 + length text.now) result }
{
    let digits = hex_len(text);
    if digits >= 4 {
        return Scanned::Found(Lexeme::Unit(unit_of(&text[..4])), 6);
    }
    if digits == text.len() {
        Scanned::Begun
    } else {
        Scanned::Bad(2 + digits)
    }
}

/// How many hexadecimal digits a text begins with.
fn hex_len(text: &[u8]) -> usize
    ensures { result ≡ prefix_len is_hex text.now }
{
    for (place, byte) in text.iter().enumerate() {
        if digit_of(*byte) >= 16 {
            return place;
        }
    }
    text.len()
}

/// The worth of a hexadecimal digit, and 16 for a byte that is none.
#[inline(always)]
fn digit_of(byte: u8) -> u16
    ensures { result ≡ digit byte }
{
    match byte {
        b'0'..=b'9' => u16::from(byte - b'0'),
        b'a'..=b'f' => u16::from(byte - b'a' + 10),
        b'A'..=b'F' => u16::from(byte - b'A' + 10),
        _ => 16,
    }
}

/// The number of four hexadecimal digits.
fn unit_of(digits: &[u8]) -> u16
    requires len { length digits.now ≡ 4 }
    requires hex { prefix_len is_hex digits.now ≡ 4 }
    ensures { result ≡ number 16 digits.now }
{
    digit_of(digits[0]) * 4096
        + digit_of(digits[1]) * 256
        + digit_of(digits[2]) * 16
        + digit_of(digits[3])
}
