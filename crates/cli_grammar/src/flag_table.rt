//! The main flags of a command line.
ghost use Rattle.std.specs.Prelude.{◌≡◌, map};
ghost use Rattle.std.specs.Option.{option_map};
ghost use Rattle.cli_grammar.specs.Flags.{flag_named, flag_rows, row, row_named};

use crate::kind::Kind;
use mlr_event::Format;

/// What a main flag sets.
#[derive(Clone, Copy)]
pub enum Setting {
    /// The format of the input.
    Input(Format),
    /// The format of the output.
    Output(Format),
    /// The formats of the input and of the output.
    Both(Format, Format),
    /// The format of the input, and barred PPRINT as that of the output.
    ToBarred(Format),
    /// The format of the input, by its name.
    InputNamed,
    /// The format of the output, by its name.
    OutputNamed,
    /// The format of both, by its name.
    BothNamed,
    /// The separator of fields of the input.
    Ifs,
    /// The separator of fields of the output.
    Ofs,
    /// The separator of fields of both.
    Fs,
    /// The separator of a key and its value of the input.
    Ips,
    /// The separator of a key and its value of the output.
    Ops,
    /// The separator of a key and its value of both.
    Ps,
    /// The first line is data.
    Implicit,
    /// No header is written.
    Headerless,
    /// Rows may be shorter or longer than their header.
    Ragged,
    /// Whether a name that repeats in a record gets a suffix.
    Dedupe(bool),
    /// Every CSV field is quoted.
    QuoteAll,
    /// PPRINT is written with bars.
    Barred,
    /// Whether each field of JSON has a line of its own.
    Stacked(bool),
    /// Whether the records of JSON are one list.
    Listwrap(bool),
    /// The separator of flattened names.
    Flatsep,
    /// No record is flattened.
    NoFlatten,
    /// No record is unflattened.
    NoUnflatten,
    /// Comments, which begin with `#`, are dropped.
    Skip,
    /// Comments, which begin with `#`, are passed on.
    Pass,
    /// Comments with this prefix are dropped.
    SkipWith,
    /// Comments with this prefix are passed on.
    PassWith,
    /// All values are strings.
    InferNone,
    /// Numbers with leading zeros are octal.
    InferOctal,
    /// No input is read.
    NoInput,
    /// An input.
    From,
    /// The records that go from one thread to the next at a time.
    PerBatch,
    /// The turns that a loop of the language takes at most.
    Turns,
    /// The run goes without threads.
    Serial,
    /// Nothing.
    NoEffect,
}

/// A main flag: its name, what the word after it is, and what it sets.
pub type FlagRow = (&'static [u8], Kind, Setting);

/// A number of records in a batch.
const BATCH: Kind = Kind::Number(1, 1_000_000);

/// A number of turns.
const TURNS: Kind = Kind::Number(1, 1_000_000_000_000_000_000);

const FLAGS: [FlagRow; 106] = [
    (b"--allow-ragged-csv-input", Kind::Nothing, Setting::Ragged),
    (b"--barred", Kind::Nothing, Setting::Barred),
    (b"--c2b", Kind::Nothing, Setting::ToBarred(Format::Csv)),
    (
        b"--c2d",
        Kind::Nothing,
        Setting::Both(Format::Csv, Format::Dkvp),
    ),
    (
        b"--c2j",
        Kind::Nothing,
        Setting::Both(Format::Csv, Format::Json),
    ),
    (
        b"--c2l",
        Kind::Nothing,
        Setting::Both(Format::Csv, Format::Jsonl),
    ),
    (
        b"--c2m",
        Kind::Nothing,
        Setting::Both(Format::Csv, Format::Markdown),
    ),
    (
        b"--c2n",
        Kind::Nothing,
        Setting::Both(Format::Csv, Format::Nidx),
    ),
    (
        b"--c2p",
        Kind::Nothing,
        Setting::Both(Format::Csv, Format::Pprint),
    ),
    (
        b"--c2t",
        Kind::Nothing,
        Setting::Both(Format::Csv, Format::Tsv),
    ),
    (
        b"--c2x",
        Kind::Nothing,
        Setting::Both(Format::Csv, Format::Xtab),
    ),
    (
        b"--csv",
        Kind::Nothing,
        Setting::Both(Format::Csv, Format::Csv),
    ),
    (
        b"--dedupe-field-names",
        Kind::Nothing,
        Setting::Dedupe(true),
    ),
    (
        b"--dkvp",
        Kind::Nothing,
        Setting::Both(Format::Dkvp, Format::Dkvp),
    ),
    (b"--dsl-turns", TURNS, Setting::Turns),
    (b"--flatsep", Kind::Separator, Setting::Flatsep),
    (b"--from", Kind::File, Setting::From),
    (b"--fs", Kind::Separator, Setting::Fs),
    (
        b"--headerless-csv-output",
        Kind::Nothing,
        Setting::Headerless,
    ),
    (b"--hi", Kind::Nothing, Setting::Implicit),
    (b"--ho", Kind::Nothing, Setting::Headerless),
    (b"--icsv", Kind::Nothing, Setting::Input(Format::Csv)),
    (b"--idkvp", Kind::Nothing, Setting::Input(Format::Dkvp)),
    (b"--ifs", Kind::Separator, Setting::Ifs),
    (b"--ijson", Kind::Nothing, Setting::Input(Format::Json)),
    (b"--ijsonl", Kind::Nothing, Setting::Input(Format::Jsonl)),
    (b"--imd", Kind::Nothing, Setting::Input(Format::Markdown)),
    (b"--implicit-csv-header", Kind::Nothing, Setting::Implicit),
    (b"--infer-none", Kind::Nothing, Setting::InferNone),
    (b"--infer-octal", Kind::Nothing, Setting::InferOctal),
    (b"--inidx", Kind::Nothing, Setting::Input(Format::Nidx)),
    (b"--io", Kind::Format, Setting::BothNamed),
    (b"--ipprint", Kind::Nothing, Setting::Input(Format::Pprint)),
    (b"--ips", Kind::Separator, Setting::Ips),
    (b"--itsv", Kind::Nothing, Setting::Input(Format::Tsv)),
    (b"--ixtab", Kind::Nothing, Setting::Input(Format::Xtab)),
    (b"--j2b", Kind::Nothing, Setting::ToBarred(Format::Json)),
    (
        b"--j2c",
        Kind::Nothing,
        Setting::Both(Format::Json, Format::Csv),
    ),
    (
        b"--j2d",
        Kind::Nothing,
        Setting::Both(Format::Json, Format::Dkvp),
    ),
    (
        b"--j2l",
        Kind::Nothing,
        Setting::Both(Format::Json, Format::Jsonl),
    ),
    (
        b"--j2m",
        Kind::Nothing,
        Setting::Both(Format::Json, Format::Markdown),
    ),
    (
        b"--j2n",
        Kind::Nothing,
        Setting::Both(Format::Json, Format::Nidx),
    ),
    (
        b"--j2p",
        Kind::Nothing,
        Setting::Both(Format::Json, Format::Pprint),
    ),
    (
        b"--j2t",
        Kind::Nothing,
        Setting::Both(Format::Json, Format::Tsv),
    ),
    (
        b"--j2x",
        Kind::Nothing,
        Setting::Both(Format::Json, Format::Xtab),
    ),
    (b"--jlistwrap", Kind::Nothing, Setting::Listwrap(true)),
    (
        b"--json",
        Kind::Nothing,
        Setting::Both(Format::Json, Format::Json),
    ),
    (
        b"--jsonl",
        Kind::Nothing,
        Setting::Both(Format::Jsonl, Format::Jsonl),
    ),
    (b"--jvstack", Kind::Nothing, Setting::Stacked(true)),
    (b"--l2b", Kind::Nothing, Setting::ToBarred(Format::Jsonl)),
    (
        b"--l2c",
        Kind::Nothing,
        Setting::Both(Format::Jsonl, Format::Csv),
    ),
    (
        b"--l2d",
        Kind::Nothing,
        Setting::Both(Format::Jsonl, Format::Dkvp),
    ),
    (
        b"--l2j",
        Kind::Nothing,
        Setting::Both(Format::Jsonl, Format::Json),
    ),
    (
        b"--l2m",
        Kind::Nothing,
        Setting::Both(Format::Jsonl, Format::Markdown),
    ),
    (
        b"--l2n",
        Kind::Nothing,
        Setting::Both(Format::Jsonl, Format::Nidx),
    ),
    (
        b"--l2p",
        Kind::Nothing,
        Setting::Both(Format::Jsonl, Format::Pprint),
    ),
    (
        b"--l2t",
        Kind::Nothing,
        Setting::Both(Format::Jsonl, Format::Tsv),
    ),
    (
        b"--l2x",
        Kind::Nothing,
        Setting::Both(Format::Jsonl, Format::Xtab),
    ),
    (
        b"--nidx",
        Kind::Nothing,
        Setting::Both(Format::Nidx, Format::Nidx),
    ),
    (b"--no-auto-flatten", Kind::Nothing, Setting::NoFlatten),
    (b"--no-auto-unflatten", Kind::Nothing, Setting::NoUnflatten),
    (b"--no-color", Kind::Nothing, Setting::NoEffect),
    (
        b"--no-dedupe-field-names",
        Kind::Nothing,
        Setting::Dedupe(false),
    ),
    (b"--no-jlistwrap", Kind::Nothing, Setting::Listwrap(false)),
    (b"--no-jvstack", Kind::Nothing, Setting::Stacked(false)),
    (b"--ocsv", Kind::Nothing, Setting::Output(Format::Csv)),
    (b"--odkvp", Kind::Nothing, Setting::Output(Format::Dkvp)),
    (b"--ofs", Kind::Separator, Setting::Ofs),
    (b"--ojson", Kind::Nothing, Setting::Output(Format::Json)),
    (b"--ojsonl", Kind::Nothing, Setting::Output(Format::Jsonl)),
    (b"--omd", Kind::Nothing, Setting::Output(Format::Markdown)),
    (b"--onidx", Kind::Nothing, Setting::Output(Format::Nidx)),
    (b"--opprint", Kind::Nothing, Setting::Output(Format::Pprint)),
    (b"--ops", Kind::Separator, Setting::Ops),
    (b"--otsv", Kind::Nothing, Setting::Output(Format::Tsv)),
    (b"--oxtab", Kind::Nothing, Setting::Output(Format::Xtab)),
    (b"--pass-comments", Kind::Nothing, Setting::Pass),
    (b"--pass-comments-with", Kind::Prefix, Setting::PassWith),
    (
        b"--pprint",
        Kind::Nothing,
        Setting::Both(Format::Pprint, Format::Pprint),
    ),
    (b"--ps", Kind::Separator, Setting::Ps),
    (b"--quote-all", Kind::Nothing, Setting::QuoteAll),
    (b"--ragged", Kind::Nothing, Setting::Ragged),
    (b"--records-per-batch", BATCH, Setting::PerBatch),
    (b"--serial", Kind::Nothing, Setting::Serial),
    (b"--skip-comments", Kind::Nothing, Setting::Skip),
    (b"--skip-comments-with", Kind::Prefix, Setting::SkipWith),
    (b"--t2b", Kind::Nothing, Setting::ToBarred(Format::Tsv)),
    (
        b"--t2c",
        Kind::Nothing,
        Setting::Both(Format::Tsv, Format::Csv),
    ),
    (
        b"--t2d",
        Kind::Nothing,
        Setting::Both(Format::Tsv, Format::Dkvp),
    ),
    (
        b"--t2j",
        Kind::Nothing,
        Setting::Both(Format::Tsv, Format::Json),
    ),
    (
        b"--t2l",
        Kind::Nothing,
        Setting::Both(Format::Tsv, Format::Jsonl),
    ),
    (
        b"--t2m",
        Kind::Nothing,
        Setting::Both(Format::Tsv, Format::Markdown),
    ),
    (
        b"--t2n",
        Kind::Nothing,
        Setting::Both(Format::Tsv, Format::Nidx),
    ),
    (
        b"--t2p",
        Kind::Nothing,
        Setting::Both(Format::Tsv, Format::Pprint),
    ),
    (
        b"--t2x",
        Kind::Nothing,
        Setting::Both(Format::Tsv, Format::Xtab),
    ),
    (
        b"--tsv",
        Kind::Nothing,
        Setting::Both(Format::Tsv, Format::Tsv),
    ),
    (
        b"--xtab",
        Kind::Nothing,
        Setting::Both(Format::Xtab, Format::Xtab),
    ),
    (b"-M", Kind::Nothing, Setting::NoEffect),
    (b"-O", Kind::Nothing, Setting::InferOctal),
    (b"-S", Kind::Nothing, Setting::InferNone),
    (
        b"-c",
        Kind::Nothing,
        Setting::Both(Format::Csv, Format::Csv),
    ),
    (b"-i", Kind::Format, Setting::InputNamed),
    (
        b"-j",
        Kind::Nothing,
        Setting::Both(Format::Json, Format::Json),
    ),
    (b"-n", Kind::Nothing, Setting::NoInput),
    (b"-o", Kind::Format, Setting::OutputNamed),
    (
        b"-t",
        Kind::Nothing,
        Setting::Both(Format::Tsv, Format::Tsv),
    ),
];

/// The main flags, in the order of their names. `--version`, `--help` and `-h`, which are flags only as the first word,
/// aren't among them.
pub fn flag_rows() -> &'static [FlagRow]
    ensures { map (λ entry. row entry.0.now entry.1 entry.2) result.now ≡ flag_rows }
{
    &FLAGS
}

/// What the word after a main flag is, and what the flag sets; None for a word that isn't a flag.
pub fn flag_named(word: &[u8]) -> Option<(Kind, Setting)>
    ensures { result ≡ flag_named word.now }
{
    row_named(flag_rows(), word)
}

/// The first of these rows with this name: what the word after the flag is, and what the flag sets.
fn row_named(rows: &[FlagRow], word: &[u8]) -> Option<(Kind, Setting)>
    ensures { result
        ≡ row_named (map (λ entry. row entry.0.now entry.1 entry.2) rows.now) word.now }
{
    for row in rows {
        if row.0 == word {
            return Some((row.1, row.2));
        }
    }
    None
}
