//! The options of `join`.
ghost use Rattle.std.specs.Prelude.{◌≡◌, codes, length, IfOk};
ghost use Rattle.std.specs.Option.{option_and_then, option_map};
ghost use Rattle.cli_grammar.specs.Kinds.{format_named};
ghost use Rattle.cli_grammar.specs.Options.{last};
ghost use Rattle.cli_shape.specs.Join.{is_uneven, join_of, left_read, names_by, read_in, word_by};

use cli_choices::{all_names, word_or};
use cli_grammar::{VerbWords, format_named};
use mlr_event::{Format, InputName, Names, ReadOpts};
use mlr_record::split::count_parts;
use mlr_spec::NoMemory;
use mlr_value::Bytes;
use std::alloc::Global;
use verbs_join::Join;

/// The options of `join`, where the main inputs are read so.
pub fn join(alloc: Global, read: &ReadOpts, given: &VerbWords) -> Result<Join, NoMemory>
    ensures { IfOk result (λ options. options ≡ join_of read.now given.now) }
{
    Ok(Join {
        file: InputName::File(Bytes::copy_of(alloc, word_or(given, b"-f", b""))?),
        read: left_read(alloc, read, given)?,
        left: names_by(alloc, given, b"-l", b"-j", b"-r")?,
        right: names_by(alloc, given, b"-r", b"-j", b"-l")?,
        output: names_by(alloc, given, b"-j", b"-l", b"-r")?,
        pairs: !given.has(b"--np"),
        left_unpaired: given.has(b"--ul"),
        right_unpaired: given.has(b"--ur"),
        left_prefix: text_after(alloc, given, b"--lp")?,
        right_prefix: text_after(alloc, given, b"--rp")?,
    })
}

/// How the left file is read: as the main inputs are, or in the format that is given.
fn left_read(alloc: Global, main: &ReadOpts, given: &VerbWords) -> Result<ReadOpts, NoMemory>
    ensures { IfOk result (λ opts. opts ≡ left_read main.now given.now) }
{
    match format_of(given) {
        Some(format) => read_in(alloc, main, format),
        None => main.copy(alloc),
    }
}

/// The format of the left file, if it is given.
fn format_of(given: &VerbWords) -> Option<Format>
    ensures { result ≡ option_and_then format_named (last (codes "-i") given.now.options) }
{
    format_named(given.last(b"-i")?)
}

/// How a file in this format is read, with the separators of the format and else as the main inputs are.
fn read_in(alloc: Global, main: &ReadOpts, format: Format) -> Result<ReadOpts, NoMemory>
    ensures { IfOk result (λ opts. opts ≡ read_in main.now format) }
{
    Ok(ReadOpts {
        format,
        ifs: Bytes::copy_of(alloc, format.separator())?,
        ips: Bytes::copy_of(alloc, b"=")?,
        implicit: main.implicit,
        ragged: main.ragged,
        dedupe: main.dedupe,
        comments: main.comments.copy(alloc)?,
        infer: main.infer,
    })
}

/// The names after the first of three options that was given.
fn names_by(
    alloc: Global,
    given: &VerbWords,
    first: &[u8],
    second: &[u8],
    third: &[u8],
) -> Result<Names, NoMemory>
    ensures { IfOk result (λ names. names
        ≡ names_by first.now second.now third.now given.now.options) }
{
    match word_by(given, first, second, third) {
        Some(word) => all_names(alloc, word),
        None => Ok(Names::new(alloc)),
    }
}

/// The word after the first of three options that was given.
fn word_by<'a>(given: &'a VerbWords, first: &[u8], second: &[u8], third: &[u8]) -> Option<&'a [u8]>
    ensures { option_map (λ word. word.now) result
        ≡ word_by first.now second.now third.now given.now.options }
{
    given
        .last(first)
        .or(given.last(second))
        .or(given.last(third))
}

/// A copy of the word after an option, if it was given.
fn text_after(alloc: Global, given: &VerbWords, option: &[u8]) -> Result<Option<Bytes>, NoMemory>
    ensures { IfOk result (λ text. text ≡ last option.now given.now.options) }
{
    match given.last(option) {
        Some(word) => Ok(Some(Bytes::copy_of(alloc, word)?)),
        None => Ok(None),
    }
}

/// Whether the join fields that are given are more on one side than on another.
pub fn is_uneven(given: &VerbWords) -> bool
    ensures { result ≡ is_uneven given.now }
{
    let left = count_by(given, b"-l", b"-j", b"-r");
    left != count_by(given, b"-r", b"-j", b"-l") || left != count_by(given, b"-j", b"-l", b"-r")
}

/// How many names follow the first of three options that was given.
fn count_by(given: &VerbWords, first: &[u8], second: &[u8], third: &[u8]) -> usize
    ensures { result ≡ length (names_by first.now second.now third.now given.now.options) }
{
    match word_by(given, first, second, third) {
        Some(word) => count_parts(b",", word),
        None => 0,
    }
}
