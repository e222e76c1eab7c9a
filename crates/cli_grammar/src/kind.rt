//! What the word after an option is.
ghost use Rattle.std.specs.Prelude.{◌≡◌};
ghost use Rattle.cli_grammar.specs.Kinds.{are_accumulators, are_steppers, fault_of, format_named, is_accumulator, is_stepper, is_within, name_fault};

use crate::number::int_in;
use crate::separator::{is_short, separator_in};
use mlr_event::{Format, Why};
use mlr_record::split::next_part;
use stat_base::{Accumulator, Stepper};

/// What the word after an option is.
#[derive(Clone, Copy)]
pub enum Kind {
    /// There is none: the option is a word by itself.
    Nothing,
    /// Any text.
    Text,
    /// Names of fields, separated by commas.
    Names,
    /// Names of accumulators, separated by commas.
    Accumulators,
    /// Names of steppers, separated by commas.
    Steppers,
    /// A pattern. Whether it can be read is found later.
    Pattern,
    /// The name of a file.
    File,
    /// A whole number of 64 bits, from the first to the second.
    Number(i64, i64),
    /// A whole number of 64 bits other than 0.
    Step,
    /// A separator, or the name of one.
    Separator,
    /// What comments begin with.
    Prefix,
    /// The name of a format.
    Format,
}

impl Kind {
    /// Why a word isn't of this kind.
    pub(crate) fn fault_of(self, word: &[u8]) -> Option<Why>
        ensures { result ≡ fault_of self word.now }
    {
        match self {
            Kind::Nothing | Kind::Text | Kind::Names | Kind::Pattern | Kind::File => None,
            Kind::Accumulators => name_fault(are_accumulators(word)),
            Kind::Steppers => name_fault(are_steppers(word)),
            Kind::Number(least, greatest) => match int_in(word) {
                Some(n) if is_within(n, least, greatest) => None,
                _ => Some(Why::BadNumber),
            },
            Kind::Step => match int_in(word) {
                Some(n) if n != 0 => None,
                _ => Some(Why::BadNumber),
            },
            Kind::Separator => match separator_in(word) {
                Some(_) => None,
                None => Some(Why::BadSeparator),
            },
            Kind::Prefix if is_short(word) => None,
            Kind::Prefix => Some(Why::BadSeparator),
            Kind::Format => match format_named(word) {
                Some(_) => None,
                None => Some(Why::UnknownFlag),
            },
        }
    }
}

/// Why a list of names isn't of its kind, by whether each name is known.
fn name_fault(known: bool) -> Option<Why>
    ensures { result ≡ name_fault known }
{
    if known { None } else { Some(Why::UnknownFlag) }
}

/// Whether each name between the commas of a word is that of an accumulator.
fn are_accumulators(word: &[u8]) -> bool
    ensures { result ≡ are_accumulators word.now }
{
    let mut left = word;
    loop {
        let (name, rest) = next_part(b",", left);
        if !is_accumulator(name) {
            return false;
        }
        match rest {
            None => return true,
            Some(rest) => left = rest,
        }
    }
}

fn is_accumulator(name: &[u8]) -> bool
    ensures { result ≡ is_accumulator name.now }
{
    Accumulator::named(name).is_some()
}

/// Whether each name between the commas of a word is that of a stepper.
fn are_steppers(word: &[u8]) -> bool
    ensures { result ≡ are_steppers word.now }
{
    let mut left = word;
    loop {
        let (name, rest) = next_part(b",", left);
        if !is_stepper(name) {
            return false;
        }
        match rest {
            None => return true,
            Some(rest) => left = rest,
        }
    }
}

fn is_stepper(name: &[u8]) -> bool
    ensures { result ≡ is_stepper name.now }
{
    Stepper::named(name).is_some()
}

fn is_within(n: i64, least: i64, greatest: i64) -> bool
    ensures { result ≡ is_within n least greatest }
{
    least <= n && n <= greatest
}

/// The format with this name.
pub fn format_named(word: &[u8]) -> Option<Format>
    ensures { result ≡ format_named word.now }
{
    if word == b"csv".as_slice() {
        Some(Format::Csv)
    } else if word == b"tsv".as_slice() {
        Some(Format::Tsv)
    } else if word == b"json".as_slice() {
        Some(Format::Json)
    } else if word == b"jsonl".as_slice() {
        Some(Format::Jsonl)
    } else if word == b"dkvp".as_slice() {
        Some(Format::Dkvp)
    } else if word == b"nidx".as_slice() {
        Some(Format::Nidx)
    } else if word == b"xtab".as_slice() {
        Some(Format::Xtab)
    } else if word == b"pprint".as_slice() {
        Some(Format::Pprint)
    } else if word == b"markdown".as_slice() {
        Some(Format::Markdown)
    } else {
        None
    }
}
