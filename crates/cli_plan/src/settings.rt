//! What the main flags of a command line set.
ghost use Rattle.std.specs.Prelude.{◌≡◌, IfOk};
ghost use Rattle.cli_grammar.specs.Separators.{separator_in};
ghost use Rattle.cli_plan.specs.Settings.{after_flag, applied, commented, format_or, number_or, numbered, plain, separated, settings_in, switched};

use crate::flag::{setting_of, word_of};
use cli_grammar::{Given, Setting, format_named, int_in, separator_in};
use mlr_event::{Comments, Format};
use mlr_spec::{InferOpts, NoMemory};
use mlr_value::Bytes;
use std::alloc::Global;

/// What the main flags of a command line set. A separator that no flag gives is that of the format.
pub struct Settings {
    /// The format of the input.
    pub input: Format,
    /// The format of the output.
    pub output: Format,
    /// The separator of fields of the input.
    pub ifs: Option<Bytes>,
    /// The separator of a key and its value of the input.
    pub ips: Option<Bytes>,
    /// The separator of fields of the output.
    pub ofs: Option<Bytes>,
    /// The separator of a key and its value of the output.
    pub ops: Option<Bytes>,
    /// The separator of flattened names.
    pub flatsep: Option<Bytes>,
    /// The first line is data.
    pub implicit: bool,
    /// No header is written.
    pub headerless: bool,
    /// Rows may be shorter or longer than their header.
    pub ragged: bool,
    /// A name that repeats in a record gets a suffix.
    pub dedupe: bool,
    /// Every CSV field is quoted.
    pub quote_all: bool,
    /// PPRINT is written with bars.
    pub barred: bool,
    /// Each field of JSON has a line of its own.
    pub stacked: bool,
    /// The records of JSON are one list.
    pub listwrap: bool,
    /// Records are flattened for a format without nested values.
    pub flattens: bool,
    /// Records are unflattened from such a format into one with nested values.
    pub unflattens: bool,
    pub comments: Comments,
    pub infer: InferOpts,
    /// No input is read.
    pub no_input: bool,
    /// The records that go from one thread to the next at a time.
    pub per_batch: u64,
    /// The turns that a loop of the language takes at most.
    pub turns: u64,
    /// The run goes without threads.
    pub serial: bool,
}

// Written by hand, so that the crates above call it instead of dropping the fields themselves.
impl Drop for Settings {
    fn drop(self) {
        let Settings {
            input: _,
            output: _,
            ifs,
            ips,
            ofs,
            ops,
            flatsep,
            implicit: _,
            headerless: _,
            ragged: _,
            dedupe: _,
            quote_all: _,
            barred: _,
            stacked: _,
            listwrap: _,
            flattens: _,
            unflattens: _,
            comments,
            infer: _,
            no_input: _,
            per_batch: _,
            turns: _,
            serial: _,
        } = self;
        drop(ifs);
        drop(ips);
        drop(ofs);
        drop(ops);
        drop(flatsep);
        drop(comments);
    }
}

/// The settings of a command line without flags.
fn plain() -> Settings
    ensures { result ≡ plain }
{
    Settings {
        input: Format::Dkvp,
        output: Format::Dkvp,
        ifs: None,
        ips: None,
        ofs: None,
        ops: None,
        flatsep: None,
        implicit: false,
        headerless: false,
        ragged: false,
        dedupe: true,
        quote_all: false,
        barred: false,
        stacked: true,
        listwrap: true,
        flattens: true,
        unflattens: true,
        comments: Comments::Keep,
        infer: InferOpts::plain(),
        no_input: false,
        per_batch: 500,
        turns: 1_000_000_000,
        serial: false,
    }
}

/// What these flags set: a later one wins.
pub fn settings_of(alloc: Global, flags: &[Given]) -> Result<Settings, NoMemory>
    ensures { IfOk result (λ settings. settings ≡ settings_in flags.now) }
{
    let mut settings = plain();
    for flag in flags {
        settings = after_flag(alloc, settings, flag)?;
    }
    Ok(settings)
}

/// The settings after one more flag. A name that is no flag changes nothing.
fn after_flag(alloc: Global, settings: Settings, flag: &Given) -> Result<Settings, NoMemory>
    ensures { IfOk result (λ after. after ≡ after_flag settings flag.now) }
{
    match setting_of(flag) {
        Some(setting) => applied(alloc, settings, setting, word_of(flag)),
        None => Ok(settings),
    }
}

/// The settings after one more flag, which sets this by the word after it.
fn applied(
    alloc: Global,
    settings: Settings,
    setting: Setting,
    word: &[u8],
) -> Result<Settings, NoMemory>
    ensures { IfOk result (λ after. after ≡ applied settings setting word.now) }
{
    let mut settings = settings;
    match setting {
        Setting::Input(input) => settings.input = input,
        Setting::Output(output) => settings.output = output,
        Setting::Both(input, output) => {
            settings.input = input;
            settings.output = output;
        }
        Setting::ToBarred(input) => {
            settings.input = input;
            settings.output = Format::Pprint;
            settings.barred = true;
        }
        Setting::InputNamed => settings.input = format_or(settings.input, word),
        Setting::OutputNamed => settings.output = format_or(settings.output, word),
        Setting::BothNamed => {
            settings.input = format_or(settings.input, word);
            settings.output = format_or(settings.output, word);
        }
        setting => return separated(alloc, settings, setting, word),
    }
    Ok(settings)
}

/// The format that a word names, or else what came before.
fn format_or(before: Format, word: &[u8]) -> Format
    ensures { result ≡ format_or before word.now }
{
    match format_named(word) {
        Some(format) => format,
        None => before,
    }
}

/// What a flag that gives a separator sets.
fn separated(
    alloc: Global,
    settings: Settings,
    setting: Setting,
    word: &[u8],
) -> Result<Settings, NoMemory>
    ensures { IfOk result (λ after. after ≡ separated settings setting word.now) }
{
    let mut settings = settings;
    match setting {
        Setting::Ifs => settings.ifs = separator_of(alloc, word)?,
        Setting::Ofs => settings.ofs = separator_of(alloc, word)?,
        Setting::Fs => {
            settings.ifs = separator_of(alloc, word)?;
            settings.ofs = separator_of(alloc, word)?;
        }
        Setting::Ips => settings.ips = separator_of(alloc, word)?,
        Setting::Ops => settings.ops = separator_of(alloc, word)?,
        Setting::Ps => {
            settings.ips = separator_of(alloc, word)?;
            settings.ops = separator_of(alloc, word)?;
        }
        Setting::Flatsep => settings.flatsep = separator_of(alloc, word)?,
        setting => return commented(alloc, settings, setting, word),
    }
    Ok(settings)
}

/// The separator that a word means.
fn separator_of(alloc: Global, word: &[u8]) -> Result<Option<Bytes>, NoMemory>
    ensures { IfOk result (λ text. text ≡ separator_in word.now) }
{
    match separator_in(word) {
        Some(text) => Ok(Some(Bytes::copy_of(alloc, text)?)),
        None => Ok(None),
    }
}

/// What a flag of comments sets.
fn commented(
    alloc: Global,
    settings: Settings,
    setting: Setting,
    word: &[u8],
) -> Result<Settings, NoMemory>
    ensures { IfOk result (λ after. after ≡ commented settings setting word.now) }
{
    let mut settings = settings;
    match setting {
        Setting::Skip => settings.comments = Comments::Skip(Bytes::copy_of(alloc, b"#")?),
        Setting::Pass => settings.comments = Comments::Pass(Bytes::copy_of(alloc, b"#")?),
        Setting::SkipWith => settings.comments = Comments::Skip(Bytes::copy_of(alloc, word)?),
        Setting::PassWith => settings.comments = Comments::Pass(Bytes::copy_of(alloc, word)?),
        setting => return Ok(numbered(settings, setting, word)),
    }
    Ok(settings)
}

/// What a flag that gives a number sets.
fn numbered(settings: Settings, setting: Setting, word: &[u8]) -> Settings
    ensures { result ≡ numbered settings setting word.now }
{
    let mut settings = settings;
    match setting {
        Setting::PerBatch => settings.per_batch = number_or(settings.per_batch, word),
        Setting::Turns => settings.turns = number_or(settings.turns, word),
        setting => return switched(settings, setting),
    }
    settings
}

/// The number in a word, or else what came before.
fn number_or(before: u64, word: &[u8]) -> u64
    ensures { result ≡ number_or before word.now }
{
    match int_in(word) {
        Some(number) => u64::try_from(number).unwrap_or(before),
        None => before,
    }
}

/// What a flag sets that gives no format, no separator, no comments and no number.
fn switched(settings: Settings, setting: Setting) -> Settings
    ensures { result ≡ switched settings setting }
{
    let mut settings = settings;
    match setting {
        Setting::Implicit => settings.implicit = true,
        Setting::Headerless => settings.headerless = true,
        Setting::Ragged => settings.ragged = true,
        Setting::Dedupe(dedupe) => settings.dedupe = dedupe,
        Setting::QuoteAll => settings.quote_all = true,
        Setting::Barred => settings.barred = true,
        Setting::Stacked(stacked) => settings.stacked = stacked,
        Setting::Listwrap(listwrap) => settings.listwrap = listwrap,
        Setting::NoFlatten => settings.flattens = false,
        Setting::NoUnflatten => settings.unflattens = false,
        Setting::InferNone => settings.infer.none = true,
        Setting::InferOctal => settings.infer.octal = true,
        Setting::NoInput => settings.no_input = true,
        Setting::Serial => settings.serial = true,
        _ => {}
    }
    settings
}
