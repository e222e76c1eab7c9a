//! What the options of a verb say, or a default.
ghost use Rattle.std.specs.Prelude.{◌≡◌, IfOk};
ghost use Rattle.cli_choices.specs.Choices.{argument_of, count_in, count_of, count_or, following, int_in_word, int_or, later_number, names_after, number_after, number_or, separator_or, separator_in_word, word_or};

use crate::names::names_in;
use cli_grammar::{Given, VerbWords, int_in, separator_in};
use mlr_event::Names;
use mlr_spec::NoMemory;
use mlr_value::Bytes;
use std::alloc::Global;

/// The word after an option; the empty word where there is none.
pub fn argument_of(given: &Given) -> &[u8]
    ensures { result.now ≡ argument_of given.now }
{
    match &given.argument {
        Some(word) => word.as_slice(),
        None => &[],
    }
}

/// The word after the last option with this name, or a default.
pub fn word_or<'a>(given: &'a VerbWords, option: &[u8], default: &'a [u8]) -> &'a [u8]
    ensures { result.now ≡ word_or default.now option.now given.now.options }
{
    match given.last(option) {
        Some(word) => word,
        None => default,
    }
}

/// The word after the last option with this name, or a default.
pub fn text_or(
    alloc: Global,
    given: &VerbWords,
    option: &[u8],
    default: &[u8],
) -> Result<Bytes, NoMemory>
    ensures { IfOk result (λ text. text ≡ word_or default.now option.now given.now.options) }
{
    Bytes::copy_of(alloc, word_or(given, option, default))
}

/// The names in the word after the last option with this name.
pub fn names_after(alloc: Global, given: &VerbWords, option: &[u8]) -> Result<Names, NoMemory>
    ensures { IfOk result (λ names. names ≡ names_after option.now given.now.options) }
{
    names_in(alloc, word_or(given, option, b""))
}

/// The count after the last option with this name, or a default.
pub fn count_or(given: &VerbWords, option: &[u8], default: u64) -> u64
    ensures { result ≡ count_or default option.now given.now.options }
{
    match given.last(option) {
        Some(word) => count_in(word, default),
        None => default,
    }
}

/// The count in a word, or a default where there is none.
fn count_in(word: &[u8], default: u64) -> u64
    ensures { result ≡ count_in default word.now }
{
    match int_in(word) {
        Some(n) => count_of(n, default),
        None => default,
    }
}

/// A number as a count, or a default where it is negative.
fn count_of(n: i64, default: u64) -> u64
    ensures { result ≡ count_of default n }
{
    match u64::try_from(n) {
        Ok(count) => count,
        Err(_) => default,
    }
}

/// The whole number after the last option with this name, or a default.
pub fn int_or(given: &VerbWords, option: &[u8], default: i64) -> i64
    ensures { result ≡ int_or default option.now given.now.options }
{
    match given.last(option) {
        Some(word) => int_in_word(word, default),
        None => default,
    }
}

/// The whole number in a word, or a default where there is none.
fn int_in_word(word: &[u8], default: i64) -> i64
    ensures { result ≡ int_in_word default word.now }
{
    match int_in(word) {
        Some(n) => n,
        None => default,
    }
}

/// The separator after the last option with this name, or a default.
pub fn separator_or(
    alloc: Global,
    given: &VerbWords,
    option: &[u8],
    default: &[u8],
) -> Result<Bytes, NoMemory>
    ensures { IfOk result (λ text. text
        ≡ separator_or default.now option.now given.now.options) }
{
    match given.last(option) {
        Some(word) => Bytes::copy_of(alloc, separator_in_word(word, default)),
        None => Bytes::copy_of(alloc, default),
    }
}

/// The separator that a word means, or a default where it means none.
fn separator_in_word<'a>(word: &'a [u8], default: &'a [u8]) -> &'a [u8]
    ensures { result.now ≡ separator_in_word default.now word.now }
{
    match separator_in(word) {
        Some(text) => text,
        None => default,
    }
}

/// The number of the last of these options with this name, or a default.
pub fn number_or(options: &[Given], name: &[u8], default: usize) -> usize
    ensures { result ≡ number_or default name.now options.now }
{
    let mut number = default;
    for given in options {
        number = later_number(given, name, number);
    }
    number
}

/// The number of an option with this name, or else what came before.
fn later_number(given: &Given, name: &[u8], before: usize) -> usize
    ensures { result ≡ later_number before name.now given.now }
{
    if given.name.as_slice() == name {
        given.number
    } else {
        before
    }
}

/// The number of the word after the last option with this name.
pub fn number_after(given: &VerbWords, option: &[u8]) -> usize
    ensures { result ≡ number_after option.now given.now.options }
{
    following(number_or(given.options.as_slice(), option, 0))
}

/// The number of the word after the word with this number.
pub fn following(number: usize) -> usize
    ensures { result ≡ following number }
{
    number.saturating_add(1)
}
