//! Whole numbers in words.
ghost use Rattle.std.specs.Prelude.{◌≡◌, nat_lt};
ghost use Rattle.std.specs.List.{list_all};
ghost use Rattle.mlr_spec.specs.Infer.{are_digits, digit, unsigned};
ghost use Rattle.cli_grammar.specs.Numbers.{int_in};

use mlr_spec::{InferOpts, Kind};
use mlr_value::infer;

/// The whole number of 64 bits in a word: decimal digits with or without a sign.
pub fn int_in(word: &[u8]) -> Option<i64>
    ensures { result ≡ int_in word.now }
{
    if !is_decimal(word) {
        return None;
    }
    match infer(word, InferOpts::plain()) {
        Kind::Int(n) => Some(n),
        _ => None,
    }
}

/// Whether a word is decimal digits, with or without a sign before them.
fn is_decimal(word: &[u8]) -> bool
    ensures { result ≡ are_digits 10 (unsigned word.now) }
{
    let digits = unsigned(word);
    !digits.is_empty() && all_digits(digits)
}

/// A word without the sign at its start.
fn unsigned(word: &[u8]) -> &[u8]
    ensures { result.now ≡ unsigned word.now }
{
    match word {
        [b'+' | b'-', digits @ ..] => digits,
        _ => word,
    }
}

fn all_digits(text: &[u8]) -> bool
    ensures { result ≡ list_all (λ b. nat_lt (digit b) 10) text.now }
{
    text.iter().all(|byte| is_digit(*byte))
}

fn is_digit(byte: u8) -> bool
    ensures { result ≡ nat_lt (digit byte) 10 }
{
    matches!(byte, b'0'..=b'9')
}
