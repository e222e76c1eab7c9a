//! The message of an outcome.
ghost use Rattle.std.specs.Prelude.{◌≡◌, ◌+◌, ◌<◌, ◌++◌, ◌∷◌, [], get_or, length, map};
ghost use Rattle.std.specs.Fmt.{decimal};
ghost use Rattle.mlr_event.specs.declared.names.Target.TheVariants.{Stderr};
ghost use Rattle.mlr_world.specs.Counts.{Counted, Tallied};
ghost use Rattle.mlr_world.specs.Outputs.{ChangesAt, call_failed, lacked_memory};
ghost use Rattle.cli_run.specs.Message.{Appends, fault_texts, fault_values, file_text, format_text, input_text, left_named, left_text, message_of, mode_text, named, style_text, target_text, texts_of, with_values, word_texts};
ghost use Rattle.cli_run.specs.Meaning.{word_at};
ghost use Rattle.verb_specs.specs.Verbs.{left_of};

use chain_core::{Ended, Refusal, VerbSpec, Why};
use itoa::Buffer;
use mlr_event::{Fault, FileRef, Format, InputName, Mode, NameList, StyleId, Target};
use mlr_value::Bytes;
use mlr_world::{Done, Outputs};
use writers::WriteOpts;

/// Room for the numbers of one message.
#[derive(Drop)]
pub(crate) struct Digits {
    pub(crate) first: Buffer,
    pub(crate) second: Buffer,
    pub(crate) third: Buffer,
}

/// Writes the message of an outcome to standard error, piece by piece from where its texts are. Numbers are
/// formatted in the buffers, so that a message doesn't allocate. A message names a word, an input by its place among
/// the inputs, a left file by the place of its verb, or a format by the place of its style.
pub(crate) fn write_message<O: Outputs>(
    words: &[Bytes],
    inputs: &NameList,
    verbs: &[VerbSpec],
    styles: &[WriteOpts],
    ended: &Ended,
    digits: &mut Digits,
    outputs: &mut O,
) -> Done
    ensures none { ended.now ≡ Ended.Done → result ≡ Done.Ok }
    ensures bytes { ChangesAt Stderr (Appends
        (message_of words.now inputs.now verbs.now styles.now ended.now) result)
        (O.held outputs.old) (O.held outputs.new) }
    ensures counts { Counted (call_failed result) (O.faults outputs.old) (O.faults outputs.new)
        Stderr }
    ensures memory { Tallied (lacked_memory result) (O.shortages outputs.old)
        (O.shortages outputs.new) }
{
    if let Ended::Done = ended {
        return Done::Ok;
    }
    write_texts(
        outputs,
        texts_of(ended),
        &values_of(words, inputs, verbs, styles, ended, digits),
    )
}

/// The texts of the message of an outcome, between which it says its values: a row for each.
fn texts_of(ended: &Ended) -> &'static [&'static [u8]]
    ensures { map (λ text. text.now) result.now ≡ texts_of ended.now }
{
    match ended {
        Ended::Done => &[],
        Ended::Refused(refusal) => word_texts(&refusal.why),
        Ended::Data(fault) => fault_texts(fault),
        Ended::Read(_) => &[b"mlr: cannot read ", b"\n"],
        Ended::Written(_) => &[b"mlr: cannot write ", b"\n"],
        Ended::TooLong => &[b"mlr: input too long\n"],
        Ended::NoMemory => &[b"mlr: out of memory\n"],
    }
}

/// The texts of the message of a word that isn't accepted.
fn word_texts(why: &Why) -> &'static [&'static [u8]]
    ensures { map (λ text. text.now) result.now ≡ word_texts why.now }
{
    match why {
        Why::NoVerb => &[b"mlr: word ", b": no verb\n"],
        Why::UnknownFlag => &[b"mlr: word ", b": unknown flag: ", b"\n"],
        Why::UnknownVerb => &[b"mlr: word ", b": unknown verb: ", b"\n"],
        Why::MissingArgument => &[b"mlr: word ", b": missing argument: ", b"\n"],
        Why::BadNumber => &[b"mlr: word ", b": bad number: ", b"\n"],
        Why::BadSeparator => &[b"mlr: word ", b": bad separator: ", b"\n"],
        Why::BadPattern => &[b"mlr: word ", b": bad pattern: ", b"\n"],
        Why::PatternSize => &[b"mlr: word ", b": pattern too large: ", b"\n"],
        Why::TooManyVerbs => &[b"mlr: word ", b": too many verbs: ", b"\n"],
        Why::Clash => &[b"mlr: word ", b": clash: ", b"\n"],
        Why::NotBuilt => &[b"mlr: word ", b": not built: ", b"\n"],
    }
}

/// The texts of the message of a fault.
fn fault_texts(fault: &Fault) -> &'static [&'static [u8]]
    ensures { map (λ text. text.now) result.now ≡ fault_texts fault.now }
{
    match fault {
        Fault::Length { .. } => &[
            b"mlr: ",
            b": line ",
            b": data length ",
            b", header length ",
            b"\n",
        ],
        Fault::Quote { .. } => &[b"mlr: ", b": line ", b": unclosed quote\n"],
        Fault::Table { .. } => &[b"mlr: ", b": line ", b": bad table line\n"],
        Fault::JsonSyntax { .. } => &[b"mlr: ", b": byte ", b": bad JSON\n"],
        Fault::JsonDeep { .. } => &[b"mlr: ", b": byte ", b": nested deeper than 100\n"],
        Fault::JsonKind { .. } => &[b"mlr: ", b": byte ", b": not a map\n"],
        Fault::Turns { .. } => &[b"mlr: verb ", b": record ", b": turn limit ", b" reached\n"],
        Fault::Depth { .. } => &[b"mlr: verb ", b": record ", b": call limit 500 reached\n"],
        Fault::Assert { .. } => &[b"mlr: verb ", b": record ", b": assertion ", b" failed\n"],
        Fault::WrongType { .. } => &[b"mlr: verb ", b": record ", b": wrong type for ", b"\n"],
        Fault::Index { .. } => &[b"mlr: verb ", b": record ", b": bad index\n"],
        Fault::OutputTwice { .. } => &[b"mlr: output ", b": first ", b"", b", then ", b"", b"\n"],
    }
}

/// The values that the message of an outcome says. Those past its own are empty.
fn values_of<'a>(
    words: &'a [Bytes],
    inputs: &'a NameList,
    verbs: &'a [VerbSpec],
    styles: &'a [WriteOpts],
    ended: &'a Ended,
    digits: &'a mut Digits,
) -> [&'a [u8]; 5]
    ensures { with_values (texts_of ended.now) (map (λ value. value.now) result)
        ≡ message_of words.now inputs.now verbs.now styles.now ended.now }
{
    match ended {
        Ended::Done | Ended::TooLong | Ended::NoMemory => [b""; 5],
        Ended::Refused(refusal) => {
            let number = decimal(&mut digits.first, refusal.word);
            [number, word_at(words, refusal.word), b"", b"", b""]
        }
        Ended::Data(fault) => fault_values(inputs, verbs, styles, fault, digits),
        Ended::Read(name) => [input_text(name), b"", b"", b"", b""],
        Ended::Written(target) => [target_text(target), b"", b"", b"", b""],
    }
}

/// The values that the message of a fault says.
fn fault_values<'a>(
    inputs: &'a NameList,
    verbs: &'a [VerbSpec],
    styles: &'a [WriteOpts],
    fault: &'a Fault,
    digits: &'a mut Digits,
) -> [&'a [u8]; 5]
    ensures { with_values (fault_texts fault.now) (map (λ value. value.now) result)
        ≡ with_values (fault_texts fault.now)
        (fault_values inputs.now verbs.now styles.now fault.now) }
{
    match fault {
        Fault::Length {
            file,
            line,
            want,
            have,
        } => [
            file_text(inputs, verbs, *file),
            decimal(&mut digits.first, *line),
            decimal(&mut digits.second, *have),
            decimal(&mut digits.third, *want),
            b"",
        ],
        Fault::Quote { file, line } | Fault::Table { file, line } => {
            at_place(file_text(inputs, verbs, *file), *line, digits)
        }
        Fault::JsonSyntax { file, byte }
        | Fault::JsonDeep { file, byte }
        | Fault::JsonKind { file, byte } => at_place(
            file_text(inputs, verbs, *file),
            *byte,
            digits,
        ),
        Fault::Turns { verb, nr, limit } => [
            decimal(&mut digits.first, u64::from(*verb)),
            decimal(&mut digits.second, *nr),
            decimal(&mut digits.third, *limit),
            b"",
            b"",
        ],
        Fault::Depth { verb, nr } | Fault::Index { verb, nr } => {
            at_record(*verb, *nr, b"", digits)
        }
        Fault::Assert { verb, nr, name } | Fault::WrongType { verb, nr, name } => {
            at_record(*verb, *nr, name.as_slice(), digits)
        }
        Fault::OutputTwice {
            name,
            first_mode,
            first,
            second_mode,
            second,
        } => [
            name.as_slice(),
            mode_text(first_mode),
            style_text(styles, *first),
            mode_text(second_mode),
            style_text(styles, *second),
        ],
    }
}

/// The values of a fault in an input, at a line or a byte.
fn at_place<'a>(file: &'a [u8], number: u64, digits: &'a mut Digits) -> [&'a [u8]; 5]
    ensures { map (λ value. value.now) result ≡ file.now ∷ decimal number ∷ [] ∷ [] ∷ [] ∷ [] }
{
    [file, decimal(&mut digits.first, number), b"", b"", b""]
}

/// The values of a fault of a verb, at a record.
fn at_record<'a>(verb: u32, nr: u64, name: &'a [u8], digits: &'a mut Digits) -> [&'a [u8]; 5]
    ensures { map (λ value. value.now) result
        ≡ decimal verb ∷ decimal nr ∷ name.now ∷ [] ∷ [] ∷ [] }
{
    [
        decimal(&mut digits.first, u64::from(verb)),
        decimal(&mut digits.second, nr),
        name,
        b"",
        b"",
    ]
}

/// Writes texts to standard error, with a value after each but the last, up to the first that can't be written.
fn write_texts<O: Outputs>(outputs: &mut O, texts: &[&[u8]], values: &[&[u8]]) -> Done
    ensures bytes { ChangesAt Stderr (Appends (with_values (map (λ text. text.now) texts.now)
        (map (λ value. value.now) values.now)) result)
        (O.held outputs.old) (O.held outputs.new) }
    ensures counts { Counted (call_failed result) (O.faults outputs.old) (O.faults outputs.new)
        Stderr }
    ensures memory { Tallied (lacked_memory result) (O.shortages outputs.old)
        (O.shortages outputs.new) }
{
    for place in 0..texts.len() {
        let value = value_after(texts, values, place);
        match write_both(outputs, texts[place], value) {
            Done::Ok => {}
            Done::Failed => return Done::Failed,
            Done::NoMemory => return Done::NoMemory,
        }
    }
    Done::Ok
}

/// The value after the text at a place: none after the last.
fn value_after<'a>(texts: &[&[u8]], values: &[&'a [u8]], place: usize) -> &'a [u8]
    ensures between { place + 1 < length texts.now
        → result.now ≡ get_or (map (λ value. value.now) values.now) place [] }
    ensures last { place + 1 ≡ length texts.now → result.now ≡ [] }
{
    match values.get(place) {
        Some(value) if place + 1 < texts.len() => value,
        _ => b"",
    }
}

/// Writes a text and then a value to standard error.
fn write_both<O: Outputs>(outputs: &mut O, text: &[u8], value: &[u8]) -> Done
    ensures bytes { ChangesAt Stderr (Appends (text.now ++ value.now) result) (O.held outputs.old)
        (O.held outputs.new) }
    ensures counts { Counted (call_failed result) (O.faults outputs.old) (O.faults outputs.new)
        Stderr }
    ensures memory { Tallied (lacked_memory result) (O.shortages outputs.old)
        (O.shortages outputs.new) }
{
    match write_some(outputs, text) {
        Done::Ok => write_some(outputs, value),
        Done::Failed => Done::Failed,
        Done::NoMemory => Done::NoMemory,
    }
}

/// Writes a piece to standard error, unless it is empty.
fn write_some<O: Outputs>(outputs: &mut O, piece: &[u8]) -> Done
    ensures bytes { ChangesAt Stderr (Appends piece.now result) (O.held outputs.old)
        (O.held outputs.new) }
    ensures counts { Counted (call_failed result) (O.faults outputs.old) (O.faults outputs.new)
        Stderr }
    ensures memory { Tallied (lacked_memory result) (O.shortages outputs.old)
        (O.shortages outputs.new) }
{
    if piece.is_empty() {
        return Done::Ok;
    }
    outputs.write(&Target::Stderr, piece)
}

/// A number in decimal.
fn decimal(buffer: &mut Buffer, number: u64) -> &[u8]
    ensures { result.now ≡ decimal number }
{
    buffer.format(number).as_bytes()
}

/// How an output was opened, as messages say it.
fn mode_text(mode: &Mode) -> &[u8]
    ensures { result.now ≡ mode_text mode.now }
{
    match mode {
        Mode::Fresh => b"> ",
        Mode::Append => b">> ",
    }
}

/// The name of the format of this style; the name of the first style's where there is none of this number.
fn style_text(styles: &[WriteOpts], style: StyleId) -> &[u8]
    ensures { result.now ≡ style_text styles.now style }
{
    match styles.get(style.0 as usize).or(styles.first()) {
        Some(opts) => format_text(&opts.format),
        None => b"",
    }
}

/// The name of a format.
fn format_text(format: &Format) -> &[u8]
    ensures { result.now ≡ format_text format.now }
{
    match format {
        Format::Csv => b"csv",
        Format::Tsv => b"tsv",
        Format::Json => b"json",
        Format::Jsonl => b"jsonl",
        Format::Dkvp => b"dkvp",
        Format::Nidx => b"nidx",
        Format::Xtab => b"xtab",
        Format::Pprint => b"pprint",
        Format::Markdown => b"markdown",
    }
}

/// The word with this number from 1, or no bytes if there is none.
fn word_at(words: &[Bytes], number: u64) -> &[u8]
    ensures { result.now ≡ word_at words.now number }
{
    if number == 0 {
        return b"";
    }
    match words.get((number - 1) as usize) {
        Some(word) => word.as_slice(),
        None => b"",
    }
}

/// The name of an input or a left file of a command line; no bytes if it has none.
fn file_text<'a>(inputs: &'a NameList, verbs: &'a [VerbSpec], file: FileRef) -> &'a [u8]
    ensures { result.now ≡ file_text inputs.now verbs.now file }
{
    match file {
        FileRef::Main(number) => named(inputs, number),
        FileRef::Left(number) => left_named(verbs, number),
    }
}

/// The name of the input with this number from 1, or no bytes if there is none.
fn named(inputs: &NameList, number: u64) -> &[u8]
    ensures { result.now ≡ named inputs.now number }
{
    if number == 0 {
        return b"";
    }
    match inputs.at((number - 1) as usize) {
        Some(name) => input_text(name),
        None => b"",
    }
}

/// The name of the left file of the verb with this number from 1, or no bytes if there is none.
fn left_named(verbs: &[VerbSpec], number: u32) -> &[u8]
    ensures { result.now ≡ left_named verbs.now number }
{
    if number == 0 {
        return b"";
    }
    match verbs.get((number - 1) as usize) {
        Some(spec) => left_text(spec),
        None => b"",
    }
}

/// The name of the left file of a verb, or no bytes if it has none.
fn left_text(spec: &VerbSpec) -> &[u8]
    ensures { result.now ≡ left_text (left_of spec.now) }
{
    match spec.left() {
        Some(left) => input_text(left.name),
        None => b"",
    }
}

/// An input as messages name it.
fn input_text(name: &InputName) -> &[u8]
    ensures { result.now ≡ input_text name.now }
{
    match name {
        InputName::Stdin => "(stdin)".as_bytes(),
        InputName::File(name) => name.as_slice(),
    }
}

/// An output as messages name it.
fn target_text(target: &Target) -> &[u8]
    ensures { result.now ≡ target_text target.now }
{
    match target {
        Target::Stdout => "(stdout)".as_bytes(),
        Target::Stderr => "(stderr)".as_bytes(),
        Target::File(name) => name.as_slice(),
    }
}
