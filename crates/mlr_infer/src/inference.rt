//! What a text from data is: empty, a string, an int, a fraction, or a wide number.
ghost use Rattle.std.specs.Prelude.{◌≡◌, ℕ, ◌+◌, ◌*◌, ◌^◌, ◌<◌, ◌≤◌, SomeIff, false, length, drop, nat_lt};
ghost use Rattle.std.specs.List.{list_all, prefix_len};
ghost use Rattle.mlr_spec.specs.Infer.{digit, are_digits, is_negative, unsigned, base_of, kind_after_sign, kind_of};
ghost use Rattle.mlr_infer.specs.Fraction.{fraction_from, may_be_number};
ghost use Rattle.mlr_infer.specs.Magnitude.{after_digits, digits_of, large_from, magnitude_of, octal_of, whole_of, word_of};

use mlr_spec::{InferOpts, Kind};

/// The number that a row of digits represents.
#[derive(Clone, Copy)]
enum Magnitude {
    /// A number below 2^64.
    Word(u64),
    /// A number that 64 bits don't hold.
    Large,
}

/// How far a text goes in digits of a base.
#[derive(Clone, Copy)]
enum Digits {
    /// All of it.
    Whole(Magnitude),
    /// Up to this place, where another byte is.
    Until(usize),
}

/// The magnitude of the least int. Without its sign it is no int.
const TWO_TO_63: u64 = 0x8000_0000_0000_0000;

/// What a text from data is. It looks at the whole text, and takes no memory. Most texts that are no numbers end at their first
/// byte, which is looked at without a call.
#[inline(always)]
pub fn infer(text: &[u8], opts: InferOpts) -> Kind
    ensures { result ≡ kind_of opts text.now }
{
    if text.is_empty() {
        return Kind::Empty;
    }
    if opts.none {
        return Kind::Str;
    }
    if !may_begin_number(text) {
        return Kind::Str;
    }
    signed(opts.octal, text)
}

/// Whether the first byte is among those from `+` to `9`, which are the signs, the point, the decimal digits and two bytes that
/// begin no number.
#[inline(always)]
fn may_begin_number(text: &[u8]) -> bool
    ensures { result ≡ false → may_be_number (unsigned text.now) ≡ false }
{
    matches!(text, [b'+'..=b'9', ..])
}

/// The kind of a text that may have a sign.
#[inline(never)]
fn signed(octal: bool, text: &[u8]) -> Kind
    ensures { result ≡ kind_after_sign octal (is_negative text.now) (unsigned text.now) }
{
    after_sign(octal, is_negative(text), unsigned(text))
}

/// The rows in their order.
fn after_sign(octal: bool, negative: bool, text: &[u8]) -> Kind
    ensures { result ≡ kind_after_sign octal negative text.now }
{
    if text.is_empty() {
        return Kind::Str;
    }
    if let Some(magnitude) = octal_of(octal, text) {
        return whole(negative, magnitude);
    }
    match digits_of(10, text) {
        Digits::Whole(magnitude) => whole(negative, magnitude),
        Digits::Until(place) => after_digits(negative, text, place),
    }
}

/// The rows for a text whose decimal digits end at `place`. A fraction is read on from there.
fn after_digits(negative: bool, text: &[u8], place: usize) -> Kind
    requires place { place ≡ prefix_len (λ b. nat_lt (digit b) 10) text.now }
    requires within { place ≤ length text.now }
    ensures { result ≡ after_digits negative text.now }
{
    if let Some(magnitude) = based(text) {
        return word(negative, magnitude);
    }
    if is_fraction(place > 0, &text[place..]) {
        Kind::Frac
    } else {
        Kind::Str
    }
}

fn is_negative(text: &[u8]) -> bool
    ensures { result ≡ is_negative text.now }
{
    matches!(text, [b'-', ..])
}

fn unsigned(text: &[u8]) -> &[u8]
    ensures { result.now ≡ unsigned text.now }
{
    match text {
        [b'+' | b'-', following @ ..] => following,
        _ => text,
    }
}

/// The worth of a digit, and 16 for a byte that is none. Decimal digits come first, since most are.
#[inline(always)]
fn digit_of(byte: u8) -> u64
    ensures { result ≡ digit byte }
{
    if matches!(byte, b'0'..=b'9') {
        u64::from(byte - b'0')
    } else if matches!(byte, b'a'..=b'f') {
        u64::from(byte - b'a' + 10)
    } else if matches!(byte, b'A'..=b'F') {
        u64::from(byte - b'A' + 10)
    } else {
        16
    }
}

fn all_digits(base: u64, text: &[u8]) -> bool
    ensures { result ≡ list_all (λ b. nat_lt (digit b) base) text.now }
{
    text.iter().all(|byte| digit_of(*byte) < base)
}

/// The number with one more digit, while 64 bits hold it. For most digits the first test suffices.
#[inline(always)]
fn with_digit(number: u64, base: u64, digit: u64) -> Option<u64>
    requires { digit < base }
    ensures { SomeIff result (number * base + digit < 2 ^ 64) (number * base + digit) }
{
    if number < u64::MAX / base {
        return Some(number * base + digit);
    }
    number.checked_mul(base)?.checked_add(digit)
}

/// Reads a text's digits in one pass. Each caller gives the base as a constant, and gets a loop for that base.
#[inline(always)]
fn digits_of(base: u64, text: &[u8]) -> Digits
    requires { 0 < base }
    ensures { result ≡ digits_of base text.now }
{
    let mut number = 0;
    for (i, byte) in text.iter().enumerate() {
        let digit = digit_of(*byte);
        if digit >= base {
            return Digits::Until(i);
        }
        let Some(more) = with_digit(number, base, digit) else {
            return large(base, text, i + 1);
        };
        number = more;
    }
    Digits::Whole(Magnitude::Word(number))
}

/// Continues where the digits before `start` are too many for 64 bits.
#[cold]
fn large(base: u64, text: &[u8], start: usize) -> Digits
    requires { start ≤ length text.now }
    ensures { result ≡ large_from base start (drop start text.now) }
{
    for i in start..text.len() {
        if digit_of(text[i]) >= base {
            return Digits::Until(i);
        }
    }
    Digits::Whole(Magnitude::Large)
}

/// The number of a text that is all digits.
#[inline(always)]
fn magnitude_of(base: u64, text: &[u8]) -> Option<Magnitude>
    requires { 0 < base }
    ensures { result ≡ magnitude_of base text.now }
{
    if text.is_empty() {
        return None;
    }
    match digits_of(base, text) {
        Digits::Whole(magnitude) => Some(magnitude),
        Digits::Until(_) => None,
    }
}

/// The number of a text with a leading zero, under the flag for octal.
#[tactic(auto, unfolding(crate::specs::Magnitude::magnitude_of, crate::specs::Magnitude::octal_of))]
fn octal_of(octal: bool, text: &[u8]) -> Option<Magnitude>
    ensures { result ≡ octal_of octal text.now }
{
    if !octal {
        return None;
    }
    match text {
        [b'0', digits @ ..] => magnitude_of(8, digits),
        _ => None,
    }
}

/// The number of a text that names its base.
fn based(text: &[u8]) -> Option<Magnitude>
    ensures { result ≡ magnitude_of (base_of text.now) (drop 2 text.now) }
{
    match text {
        [b'0', b'x' | b'X', digits @ ..] => magnitude_of(16, digits),
        [b'0', b'b' | b'B', digits @ ..] => magnitude_of(2, digits),
        [b'0', b'o' | b'O', digits @ ..] => magnitude_of(8, digits),
        _ => None,
    }
}

#[tactic(auto, unfolding(crate::specs::Magnitude::whole_of))]
fn whole(negative: bool, magnitude: Magnitude) -> Kind
    ensures { result ≡ whole_of negative magnitude }
{
    let Magnitude::Word(number) = magnitude else {
        return Kind::Wide;
    };
    if number < TWO_TO_63 {
        let int = number as i64;
        return Kind::Int(if negative { -int } else { int });
    }
    if negative && number == TWO_TO_63 {
        return Kind::Int(i64::MIN);
    }
    Kind::Wide
}

/// As `whole`, but without a `-` the upper half of the words are negative ints.
#[tactic(auto, unfolding(crate::specs::Magnitude::whole_of, crate::specs::Magnitude::word_of))]
fn word(negative: bool, magnitude: Magnitude) -> Kind
    ensures { result ≡ word_of negative magnitude }
{
    if let Magnitude::Word(number) = magnitude
        && number >= TWO_TO_63
        && !negative
    {
        return Kind::Int(-((u64::MAX - number) as i64) - 1);
    }
    whole(negative, magnitude)
}

/// Reads on after the first digits of a mantissa, if there are any: the rest of it, and an exponent.
fn is_fraction(begun: bool, text: &[u8]) -> bool
    ensures { result ≡ fraction_from begun false text.now }
{
    let mut digits = begun;
    let mut point = false;
    for (i, byte) in text.iter().enumerate() {
        if matches!(byte, b'0'..=b'9') {
            digits = true;
        } else if *byte == b'.' && !point {
            point = true;
        } else if *byte == b'e' || *byte == b'E' {
            return digits && is_exponent(&text[i + 1..]);
        } else {
            return false;
        }
    }
    digits
}

/// One or more digits, with or without a sign.
fn is_exponent(text: &[u8]) -> bool
    ensures { result ≡ are_digits 10 (unsigned text.now) }
{
    let digits = unsigned(text);
    !digits.is_empty() && all_digits(10, digits)
}
