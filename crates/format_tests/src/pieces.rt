//! Texts that are read in pieces, wherever they are cut, and the events that they give, written out.
ghost use Rattle.std.specs.Prelude.{◌^◌, ◌≤◌};
ghost use Rattle.mlr_lines.specs.Reader.{IsOpen, used};

use itoa::Buffer;
use mlr_event::{Comments, Ctx, Event, Events, Fault, Format, ReadOpts};
use mlr_json::append_json_value;
use mlr_lines::{LineFormat, Reader};
use mlr_record::Record;
use mlr_spec::{JsonStyle, NoMemory};
use mlr_value::{Bytes, Value, append_text};
use std::alloc::Global;
use std::process::Abort;

/// The context at the start of the first file.
pub(crate) const FIRST: Ctx = Ctx {
    nr: 0,
    fnr: 0,
    filenum: 1,
};

/// The context at the start of a later file.
pub(crate) const LATER: Ctx = Ctx {
    nr: 7,
    fnr: 0,
    filenum: 3,
};

/// An option that differs from the options of its format.
pub(crate) enum Opt {
    /// The separator of fields.
    Ifs(&'static [u8]),
    /// The separator of a key and its value.
    Ips(&'static [u8]),
    Implicit,
    Ragged,
    Repeats,
    Skip(&'static [u8]),
    Pass(&'static [u8]),
}

/// The options of a format, changed by these.
pub(crate) fn options(
    alloc: Global,
    format: Format,
    changes: &[Opt],
) -> Result<ReadOpts, NoMemory> {
    let mut opts = ReadOpts::of(alloc, format)?;
    for change in changes {
        match change {
            Opt::Ifs(text) => opts.ifs = Bytes::copy_of(alloc, text)?,
            Opt::Ips(text) => opts.ips = Bytes::copy_of(alloc, text)?,
            Opt::Implicit => opts.implicit = true,
            Opt::Ragged => opts.ragged = true,
            Opt::Repeats => opts.dedupe = false,
            Opt::Skip(prefix) => opts.comments = Comments::Skip(Bytes::copy_of(alloc, prefix)?),
            Opt::Pass(prefix) => opts.comments = Comments::Pass(Bytes::copy_of(alloc, prefix)?),
        }
    }
    Ok(opts)
}

/// A text, and its events.
pub(crate) type Text = (&'static [u8], &'static [u8]);

/// A name, the options under which texts are read, and the texts; none, where nothing can be read.
pub(crate) type Group = (&'static str, Format, &'static [Opt], &'static [Text]);

/// The options of a text in which each byte in turn takes each place.
pub(crate) type AnyByte = (Format, &'static [Opt], &'static [u8]);

/// How values are written out.
#[derive(Clone, Copy)]
pub(crate) enum Values {
    /// As texts, with `#` before a whole number.
    Plain,
    /// As JSON texts.
    Json,
}

fn append_number(number: u64, into: &mut Bytes) -> Result<(), NoMemory> {
    into.append(Buffer::new().format(number).as_bytes())
}

/// Numbers with a mark before each.
fn append_marked(mark: &[u8], numbers: &[u64], into: &mut Bytes) -> Result<(), NoMemory> {
    for number in numbers {
        into.append(mark)?;
        append_number(*number, into)?;
    }
    Ok(())
}

fn append_value(values: Values, value: &Value, into: &mut Bytes) -> Result<(), NoMemory> {
    match values {
        Values::Json => append_json_value(value, JsonStyle::Single, into),
        Values::Plain => {
            if let Value::Int(_) = value {
                into.append(b"#")?;
            }
            append_text(value, into)
        }
    }
}

/// A record as its number and its fields: `2:a=#1;b=x;`.
fn append_record(
    values: Values,
    record: &Record,
    at: Ctx,
    into: &mut Bytes,
) -> Result<(), NoMemory> {
    append_number(at.nr, into)?;
    into.append(b":")?;
    for place in 0..record.len() {
        let (name, value) = record.entry(place);
        into.append(name)?;
        into.append(b"=")?;
        append_value(values, value, into)?;
        into.append(b";")?;
    }
    Ok(())
}

/// A fault as a mark with its line or byte, and what it wanted and had: `!3!2!1`.
fn append_fault(fault: &Fault, into: &mut Bytes) -> Result<(), NoMemory> {
    match fault {
        Fault::Length {
            line,
            want,
            have,
            ..
        } => append_marked(b"!", &[*line, *want, *have], into),
        Fault::Quote { line, .. } => append_marked(b"!", &[*line], into),
        Fault::Table { line, .. } => append_marked(b"?", &[*line], into),
        Fault::JsonSyntax { byte, .. } => append_marked(b"S", &[*byte], into),
        Fault::JsonDeep { byte, .. } => append_marked(b"D", &[*byte], into),
        Fault::JsonKind { byte, .. } => append_marked(b"K", &[*byte], into),
        _ => into.append(b"~"),
    }
}

/// The events, each followed by a space.
pub(crate) fn shown(alloc: Global, values: Values, events: &Events) -> Result<Bytes, NoMemory> {
    let mut all = Bytes::new(alloc);
    for place in 0..events.len() {
        match events.at(place) {
            Some(Event::Rec(record, at)) => append_record(values, record, *at, &mut all)?,
            Some(Event::Text(text)) => all.append(text.as_slice())?,
            Some(Event::Fault(fault)) => append_fault(fault, &mut all)?,
            _ => all.append(b"~")?,
        }
        all.append(b" ")?;
    }
    Ok(all)
}

/// A reader with its options.
pub(crate) trait Reads {
    /// The events of a text that comes in two pieces, written out.
    fn events(&self, alloc: Global, prefix: &[u8], rest: &[u8]) -> Result<Bytes, NoMemory>;
}

/// The events of a file that a reader reads in two pieces, or of a prefix of a file that doesn't end there.
pub(crate) fn events_of<F: LineFormat + Drop>(
    alloc: Global,
    reader: Reader<F>,
    prefix: &[u8],
    rest: &[u8],
    ends: bool,
) -> Result<Bytes, NoMemory>
    requires open { IsOpen reader }
    requires room { used F.count reader ≤ 2 ^ 62 }
{
    let mut reader = reader;
    let mut out = Events::new(alloc);
    if prefix.len() < 1 << 40 && rest.len() < 1 << 40 {
        reader.feed(prefix, &mut out)?;
        reader.feed(rest, &mut out)?;
        if ends {
            reader.end(&mut out)?;
        }
    }
    shown(alloc, Values::Plain, &out)
}

/// Whether a reader that begins at `LATER` comes to one record with a text, and to one more with its end, with these
/// events.
pub(crate) fn counts_on<F: LineFormat + Drop>(
    alloc: Global,
    reader: Reader<F>,
    text: &[u8],
    want: &[u8],
) -> Result<bool, NoMemory>
    requires open { IsOpen reader }
    requires room { used F.count reader ≤ 2 ^ 62 }
{
    let mut reader = reader;
    let mut out = Events::new(alloc);
    if text.len() >= 1 << 40 {
        return Ok(false);
    }
    let first = reader.ctx();
    reader.feed(text, &mut out)?;
    let second = reader.ctx();
    reader.end(&mut out)?;
    let third = reader.ctx();
    let passed = shown(alloc, Values::Plain, &out)?;
    Ok(
        first == LATER
            && (second.nr, second.fnr, second.filenum) == (8, 1, 3)
            && (third.nr, third.fnr, third.filenum) == (9, 2, 3)
            && !reader.is_broken()
            && passed.as_slice() == want,
    )
}

/// Checks the events of each text, cut in two at each byte.
pub(crate) fn check_cuts<R: Reads>(
    rt: &impl Abort,
    alloc: Global,
    name: &str,
    reader: &R,
    texts: &[Text],
) -> Result<(), NoMemory> {
    for (i, row) in texts.iter().enumerate() {
        let (text, want) = *row;
        for cut in 0..text.len() + 1 {
            let events = reader.events(alloc, &text[..cut], &text[cut..])?;
            assert_eq!(rt; events.as_slice(), want, "{name} at {i}, cut at {cut}");
        }
    }
    Ok(())
}

/// The text with another byte at this place.
fn with_byte(alloc: Global, text: &[u8], place: usize, byte: u8) -> Result<Bytes, NoMemory> {
    let mut made = Bytes::new(alloc);
    for (i, old) in text.iter().enumerate() {
        made.push(if i == place { byte } else { *old })?;
    }
    Ok(made)
}

/// Checks that a text with each byte in turn at each place gives the same events wherever it is cut.
pub(crate) fn check_any_byte<R: Reads>(
    rt: &impl Abort,
    alloc: Global,
    reader: &R,
    text: &[u8],
) -> Result<(), NoMemory> {
    for place in 0..text.len() {
        for byte in 0..=255 {
            let made = with_byte(alloc, text, place, byte)?;
            let other = made.as_slice();
            let whole = reader.events(alloc, other, b"")?;
            for cut in 0..other.len() {
                let events = reader.events(alloc, &other[..cut], &other[cut..])?;
                assert!(rt; events == whole, "byte {byte} at {place}, cut at {cut}");
            }
        }
    }
    Ok(())
}
