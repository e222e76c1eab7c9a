//! Texts written as JSON strings, with escapes.
ghost use Rattle.std.specs.Prelude.{◌≡◌, ◌<◌, ◌≤◌, ◌++◌, ◌∷◌, true, length, IfOk, OnOk, OnErr};
ghost use Rattle.std.specs.List.{flat_map, position_or_len};
ghost use Rattle.mlr_spec.specs.Ascii.{quote_mark};
ghost use Rattle.mlr_spec.specs.Json.{json_string, escaped, escape_letter, hex_digit};
ghost use Rattle.mlr_json.specs.Escapes.{is_escaped, RepresentsBefore};

use mlr_spec::NoMemory;
use mlr_value::Bytes;

/// Appends a text as a JSON string. Quotes, backslashes and the bytes below 0x20 are escaped; every other
/// byte is copied, also one that isn't UTF-8. Where memory runs out, a prefix of it may have been appended.
#[inline]
pub fn append_json_string(text: &[u8], into: &mut Bytes) -> Result<(), NoMemory>
    ensures ok { OnOk result (into.new ≡ into.old ++ json_string text.now) }
    ensures err { OnErr result (RepresentsBefore into.old into.new) }
{
    append_opened(text, into)?;
    into.push(b'"')
}

/// Appends a JSON string without its last quote.
pub(crate) fn append_opened(text: &[u8], into: &mut Bytes) -> Result<(), NoMemory>
    ensures ok { OnOk result (into.new ≡ into.old ++ quote_mark ∷ flat_map escaped text.now) }
    ensures err { OnErr result (RepresentsBefore into.old into.new) }
{
    into.push(b'"')?;
    append_escaped(text, into)
}

/// Goes from one byte that wants an escape to the next.
#[inline(always)]
fn append_escaped(text: &[u8], into: &mut Bytes) -> Result<(), NoMemory>
    ensures ok { OnOk result (into.new ≡ into.old ++ flat_map escaped text.now) }
    ensures err { OnErr result (RepresentsBefore into.old into.new) }
{
    let mut rest = text;
    while !rest.is_empty() {
        rest = append_run(rest, into)?;
    }
    Ok(())
}

/// Copies what precedes the first byte that needs an escape, and escapes that byte. Returns the rest.
#[inline(always)]
fn append_run<'a>(text: &'a [u8], into: &mut Bytes) -> Result<&'a [u8], NoMemory>
    requires { 0 < length text.now }
    ensures ok { IfOk result (λ rest. into.new ++ flat_map escaped rest.now
        ≡ into.old ++ flat_map escaped text.now) }
    ensures shorter { IfOk result (λ rest. length rest.now < length text.now) }
    ensures prefix { RepresentsBefore into.old into.new }
{
    let plain = plain_prefix(text);
    let (prefix, following) = text.split_at(plain);
    into.append(prefix)?;
    match following {
        [] => Ok(following),
        [byte, rest @ ..] => {
            append_escape(*byte, into)?;
            Ok(rest)
        }
    }
}

/// How many bytes come before the first that wants an escape.
#[inline(always)]
fn plain_prefix(text: &[u8]) -> usize
    ensures place { result ≡ position_or_len is_escaped text.now }
    ensures within { result ≤ length text.now }
{
    for (place, byte) in text.iter().enumerate() {
        if wants_escape(*byte) {
            return place;
        }
    }
    text.len()
}

#[inline(always)]
fn wants_escape(byte: u8) -> bool
    ensures { result ≡ is_escaped byte }
{
    byte <= b'\\' && (byte < 0x20 || byte == b'"' || byte == b'\\')
}

fn append_escape(byte: u8, into: &mut Bytes) -> Result<(), NoMemory>
    requires { is_escaped byte ≡ true }
    ensures ok { OnOk result (into.new ≡ into.old ++ escaped byte) }
    ensures err { OnErr result (into.new ≡ into.old) }
{
    let letter = letter_of(byte);
    if letter != 0 {
        into.append(&[b'\\', letter])
    } else {
        into.append(&[
            b'\\',
            b'u',
            b'0',
            b'0',
            digit_of(byte / 16),
            digit_of(byte % 16),
        ])
    }
}

/// The letter after the backslash, or 0 for a byte that is escaped by its number.
fn letter_of(byte: u8) -> u8
    ensures { result ≡ escape_letter byte }
{
    match byte {
        b'"' => b'"',
        b'\\' => b'\\',
        8 => b'b',
        b'\t' => b't',
        b'\n' => b'n',
        12 => b'f',
        b'\r' => b'r',
        _ => 0,
    }
}

/// A lower-case hexadecimal digit.
fn digit_of(number: u8) -> u8
    requires { number < 16 }
    ensures { result ≡ hex_digit number }
{
    if number < 10 {
        b'0' + number
    } else {
        b'a' + (number - 10)
    }
}
