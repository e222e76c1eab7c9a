//! Texts read whole, cut at each byte and byte by byte, and the events that they give, written out.

ghost use Rattle.std.specs.Prelude.{◌≡◌, ◌+◌, ◌^◌, ◌<◌, ◌≤◌, length, IfOk, OnOk};
ghost use Rattle.read_json_lines.specs.Represents.{CanTake, IsOpen, used};

use crate::pieces::{FIRST, Reads, Text, Values, check_cuts, shown};
use mlr_event::{Ctx, Event, Events, FileRef, Format, ReadOpts};
use mlr_record::Record;
use mlr_spec::{InferOpts, NoMemory};
use mlr_value::{Bytes, Value};
use read_json_lines::{JsonReader, can_read};
use std::alloc::Global;
use std::process::Abort;

/// A reader at the start of a file.
fn reader(alloc: Global, infer: InferOpts) -> Result<JsonReader, NoMemory>
    ensures open { IfOk result (λ reader. IsOpen reader) }
    ensures room { IfOk result (λ reader. used reader ≤ 2 ^ 62) }
{
    let mut opts = ReadOpts::of(alloc, Format::Jsonl)?;
    opts.infer = infer;
    JsonReader::new(alloc, &opts, FileRef::Main(1), FIRST)
}

/// Reads a text in pieces of this size.
fn feed_pieces(
    reader: &mut JsonReader,
    text: &[u8],
    size: usize,
    out: &mut Events,
) -> Result<(), NoMemory>
    requires size { 0 < size }
    requires room { CanTake reader.old (length text.now) }
    ensures open { OnOk result (IsOpen reader.new) }
    ensures room { OnOk result (used reader.new ≤ used reader.old + length text.now) }
{
    let mut left = text;
    while !left.is_empty() {
        let len = left.len().min(size);
        reader.feed(&left[..len], out)?;
        left = &left[len..];
    }
    Ok(())
}

/// How a text is read: by which rules for numbers, as a whole file or as a prefix of one, and in pieces of which size.
#[derive(Clone, Copy)]
struct How {
    infer: InferOpts,
    ends: bool,
    size: usize,
}

const PLAIN: InferOpts = InferOpts {
    none: false,
    octal: false,
};

const OCTAL: InferOpts = InferOpts {
    none: false,
    octal: true,
};

/// A whole file that is read in one piece.
const WHOLE: How = How {
    infer: PLAIN,
    ends: true,
    size: 65_536,
};

/// A prefix of a file, after which more bytes may follow.
const PREFIX: How = How {
    ends: false,
    ..WHOLE
};

/// A whole file whose numbers are strings.
const STRINGS_ALONE: How = How {
    infer: InferOpts {
        none: true,
        octal: false,
    },
    ..WHOLE
};

/// Records one after another and in lists, after a byte order mark too.
const RECORDS: [Text; 12] = [
    (b"", b""),
    (b" \t\r\n", b""),
    (b"{}", b"1: "),
    (b"{\"a\":1}", b"1:a=1; "),
    (b"{\"a\":1}{\"b\":2}", b"1:a=1; 2:b=2; "),
    (b"{ \"a\" : 1 }\n{ \"a\" : 2 }\n", b"1:a=1; 2:a=2; "),
    (b"[]", b""),
    (b"[{\"a\":1},{\"b\":2}]", b"1:a=1; 2:b=2; "),
    (b"[{}][{} , {}]{}[ ]\n{}", b"1: 2: 3: 4: 5: "),
    (b"\xef\xbb\xbf", b""),
    (b"\xef\xbb\xbf{\"a\":1}", b"1:a=1; "),
    (b"{\"\":{\"a\":[]}}", b"1:={\"a\": []}; "),
];

/// Values of each kind, and names that repeat.
const VALUES: [Text; 6] = [
    (
        b"{\"a\":true,\"b\":false,\"c\":null,\"d\":\"\"}",
        b"1:a=true;b=false;c=\"\";d=\"\"; ",
    ),
    (
        b"{\"n\":-0x1F,\"f\":1.50e3,\"w\":99999999999999999999}",
        b"1:n=-0x1F;f=1.50e3;w=99999999999999999999; ",
    ),
    (b"{\"s\":\"12\"}", b"1:s=\"12\"; "),
    (b"{\"m\":{\"x\":[1,{}]}}", b"1:m={\"x\": [1, {}]}; "),
    (b"{\"a\":1,\"b\":2,\"a\":3}", b"1:a=3;b=2; "),
    (
        b"{\"m\":{\"a\":1,\"b\":2,\"a\":3}}",
        b"1:m={\"a\": 3, \"b\": 2}; ",
    ),
];

/// Escapes, a pair of surrogates, a lone one, control bytes, and bytes that aren't UTF-8.
const STRINGS: [Text; 5] = [
    (b"{\"\\u0061\\n\":\"\\/\"}", b"1:a\n=\"/\"; "),
    (
        b"{\"s\":\"\\u00e9\\ud83d\\ude00\"}",
        b"1:s=\"\xc3\xa9\xf0\x9f\x98\x80\"; ",
    ),
    (b"{\"s\":\"\\ud83dx\"}", b"1:s=\"\xef\xbf\xbdx\"; "),
    (b"{\"s\":\"\x01\n\"}", b"1:s=\"\\u0001\\n\"; "),
    (b"{\"\xff\":\"\xc3(\x80\"}", b"1:\xff=\"\xc3(\x80\"; "),
];

const NUMBERS: &[u8] = b"{\"a\":010,\"b\":1.5,\"c\":true}";

/// A syntax fault is reported once its byte was read.
const SYNTAX: [Text; 11] = [
    (b"{\"a\":1}}", b"1:a=1; S8 "),
    (b"[{},]", b"1: S5 "),
    (b"[,", b"S2 "),
    (b"{,}", b"S2 "),
    (b"{\"a\":1,}", b"S8 "),
    (b"{\"a\" \"b\"}", b"S6 "),
    (b"{\"a\":\"\\q\"}", b"S8 "),
    (b"{\"a\":\"\\u12G", b"S11 "),
    (b"{}\xef\xbb\xbf", b"1: S3 "),
    (b"\xef{", b"S2 "),
    (b"\xef\xbb{", b"S3 "),
];

/// A file that ends within a value, a list, a word or a byte order mark.
const ENDS: [Text; 10] = [
    (b"{", b"S2 "),
    (b"[{}", b"1: S4 "),
    (b"{\"a\"", b"S5 "),
    (b"{\"a\":\"x", b"S8 "),
    (b"{\"a\":\"\\u00", b"S11 "),
    (b"{\"a\":1", b"S7 "),
    (b"{\"a\":tru", b"S6 "),
    (b"tru", b"S1 "),
    (b"\xef", b"S2 "),
    (b"\xef\xbb", b"S3 "),
];

/// A value that isn't a record is a fault of kind, unless a syntax fault precedes it.
const KIND: [Text; 9] = [
    (b"1", b"K1 "),
    (b"true", b"K1 "),
    (b"\"x\"", b"K1 "),
    (b" [1]", b"K3 "),
    (b"[[", b"K2 "),
    (b"{}[{}, \"x\"]", b"1: 2: K8 "),
    (b"[{}[", b"1: S4 "),
    (b"[{} \"x\"]", b"1: S5 "),
    (b"[x]", b"S2 "),
];

/// A word where none is allowed is a fault at its first byte.
const REFUSED: [Text; 7] = [
    (b"{1", b"S2 "),
    (b"{x", b"S2 "),
    (b"{\"a\" 1", b"S6 "),
    (b"{\"a\":1 2", b"S8 "),
    (b"{\"a\":[1 2", b"S9 "),
    (b"{\"a\":1,tru", b"S8 "),
    (b"[{} 5", b"1: S5 "),
];

/// A word where one is allowed has its fault once the byte after it was read.
const WORDS: [Text; 8] = [
    (b"5", b""),
    (b"5 ", b"K1 "),
    (b"x", b""),
    (b"x ", b"S1 "),
    (b"[{},5", b"1: "),
    (b"[{},5]", b"1: K5 "),
    (b"{\"a\":x", b""),
    (b"{\"a\":x}", b"S6 "),
];

/// A record is given with its closing brace, and a string that isn't allowed is a fault at its opening quote.
const PREFIXES: [Text; 8] = [
    (b"{\"a\":1", b""),
    (b"{\"a\":1}", b"1:a=1; "),
    (b"[{\"a\":1}", b"1:a=1; "),
    (b"{\"a\":1}{\"b\":2", b"1:a=1; "),
    (b"[{} \"", b"1: S5 "),
    (b"\"", b"K1 "),
    (b"\xef", b""),
    (b"\xef\xbb", b""),
];

/// How each table of texts is read.
const GROUPS: [(&str, How, &[Text]); 11] = [
    ("records", WHOLE, &RECORDS),
    ("values", WHOLE, &VALUES),
    ("strings", WHOLE, &STRINGS),
    (
        "strings alone",
        STRINGS_ALONE,
        &[(NUMBERS, b"1:a=\"010\";b=\"1.5\";c=true; ")],
    ),
    ("syntax", WHOLE, &SYNTAX),
    ("syntax of prefixes", PREFIX, &SYNTAX),
    ("ends", WHOLE, &ENDS),
    ("kinds", WHOLE, &KIND),
    ("refused words", PREFIX, &REFUSED),
    ("words", PREFIX, &WORDS),
    ("prefixes", PREFIX, &PREFIXES),
];

impl Reads for How {
    fn events(&self, alloc: Global, prefix: &[u8], rest: &[u8]) -> Result<Bytes, NoMemory> {
        let mut out = Events::new(alloc);
        let mut reader = reader(alloc, self.infer)?;
        if self.size > 0 && prefix.len() < 1 << 40 && rest.len() < 1 << 40 {
            reader.feed(prefix, &mut out)?;
            feed_pieces(&mut reader, rest, self.size, &mut out)?;
            if self.ends {
                reader.end(&mut out)?;
            }
        }
        shown(alloc, Values::Json, &out)
    }
}

/// Texts, each repeated a number of times, one after another.
type Parts = &'static [(&'static [u8], usize)];

/// Prefixes with as many levels as are allowed, and with one more; a list around a record isn't counted.
const LEVELS: [(Parts, &[u8]); 6] = [
    (&[(b"{\"a\":", 100)], b""),
    (&[(b"{\"a\":", 101)], b"D501 "),
    (&[(b"[", 1), (b"{\"a\":", 100)], b""),
    (&[(b"[", 1), (b"{\"a\":", 101)], b"D502 "),
    (&[(b"{\"a\":", 1), (b"[", 99)], b""),
    (&[(b"{\"a\":", 1), (b"[", 100)], b"D105 "),
];

/// A text that is read in pieces of each of these sizes, the number of its events, the number of the last
/// record, and its first value: an int, or the length of a string.
struct Long {
    infer: InferOpts,
    parts: Parts,
    sizes: &'static [usize],
    want: (usize, u64, i64),
}

/// Octal numbers, many records, a deep one, and a string of 10 MB, each byte of which is read once.
const LONG: [Long; 6] = [
    Long {
        infer: OCTAL,
        parts: &[(NUMBERS, 1)],
        sizes: &[65_536],
        want: (1, 1, 8),
    },
    Long {
        infer: PLAIN,
        parts: &[(NUMBERS, 1)],
        sizes: &[65_536],
        want: (1, 1, 10),
    },
    Long {
        infer: PLAIN,
        parts: &[(b"{\"a\":1}", 100)],
        sizes: &[
            1, 2, 3, 4, 5, 6, 7, 8, 9, 10, 11, 12, 13, 14, 15, 16, 17, 18, 19,
        ],
        want: (100, 100, 1),
    },
    Long {
        infer: PLAIN,
        parts: &[(b"[", 1), (b"{\"a\":\"b\"},", 9_999), (b"{}]", 1)],
        sizes: &[1, 65_536],
        want: (10_000, 10_000, 1),
    },
    Long {
        infer: PLAIN,
        parts: &[(b"{\"a\":", 100), (b"1", 1), (b"}", 100)],
        sizes: &[7],
        want: (1, 1, 0),
    },
    Long {
        infer: PLAIN,
        parts: &[(b"{\"a\":\"", 1), (b"0123456789", 1_000_000), (b"\"}", 1)],
        sizes: &[65_536],
        want: (1, 1, 10_000_000),
    },
];

fn joined(alloc: Global, parts: &[(&[u8], usize)]) -> Result<Bytes, NoMemory> {
    let mut made = Bytes::new(alloc);
    for part in parts {
        let (text, times) = *part;
        for _ in 0..times {
            made.append(text)?;
        }
    }
    Ok(made)
}

/// The first value of a record: an int, or the length of a string.
fn first_of(record: &Record) -> i64 {
    match record.at(0) {
        Some((_, Value::Int(int))) => int.n,
        Some((_, Value::Str(text))) => i64::try_from(text.len()).unwrap_or(0),
        _ => 0,
    }
}

/// Checks a long text that is read in pieces of this size.
fn check_long(
    rt: &impl Abort,
    alloc: Global,
    row: &Long,
    text: &[u8],
    size: usize,
) -> Result<(), NoMemory> {
    let mut out = Events::new(alloc);
    let mut reader = reader(alloc, row.infer)?;
    if size > 0 && text.len() < 1 << 40 {
        feed_pieces(&mut reader, text, size, &mut out)?;
        reader.end(&mut out)?;
    }
    let first = match out.at(0) {
        Some(Event::Rec(record, _)) => first_of(record),
        _ => 0,
    };
    let got = (out.len(), reader.ctx().nr, first);
    assert_eq!(rt; got, row.want, "{size}");
    Ok(())
}

/// Checks prefixes of many levels.
fn check_levels(rt: &impl Abort, alloc: Global) -> Result<(), NoMemory> {
    for (i, row) in LEVELS.iter().enumerate() {
        let (parts, want) = *row;
        let text = joined(alloc, parts)?;
        let events = PREFIX.events(alloc, text.as_slice(), b"")?;
        assert_eq!(rt; events.as_slice(), want, "levels at {i}");
    }
    Ok(())
}

/// Checks long texts, read in pieces of each of their sizes.
fn check_sizes(rt: &impl Abort, alloc: Global) -> Result<(), NoMemory> {
    for row in LONG.iter() {
        let text = joined(alloc, row.parts)?;
        for size in row.sizes {
            check_long(rt, alloc, row, text.as_slice(), *size)?;
        }
    }
    Ok(())
}

/// The formats that can be read, and another.
const FORMATS: [(Format, bool); 3] = [
    (Format::Json, true),
    (Format::Jsonl, true),
    (Format::Csv, false),
];

/// The first format that can be read otherwise than it says.
fn first_wrong_format(alloc: Global) -> Result<Option<usize>, NoMemory> {
    for (i, row) in FORMATS.iter().enumerate() {
        let (format, want) = *row;
        if can_read(&ReadOpts::of(alloc, format)?) != want {
            return Ok(Some(i));
        }
    }
    Ok(None)
}

/// Whether the numbers of records go on from file to file.
fn are_counted_on(alloc: Global) -> Result<bool, NoMemory> {
    let opts = ReadOpts::of(alloc, Format::Json)?;
    let start = Ctx {
        nr: 7,
        fnr: 0,
        filenum: 2,
    };
    let mut out = Events::new(alloc);
    let mut reader = JsonReader::new(alloc, &opts, FileRef::Main(2), start)?;
    reader.feed(b"{}{}", &mut out)?;
    let last = reader.ctx();
    Ok((last.nr, last.fnr, last.filenum) == (9, 2, 2) && !reader.is_broken())
}

/// Checks each group of texts, cut in two at each byte, the rest in one piece and byte by byte.
fn check_groups(rt: &impl Abort, alloc: Global) -> Result<(), NoMemory> {
    for row in GROUPS.iter() {
        let (name, how, texts) = *row;
        check_cuts(rt, alloc, name, &how, texts)?;
        check_cuts(rt, alloc, name, &How { size: 1, ..how }, texts)?;
    }
    Ok(())
}

/// Checks the reader of JSON and JSON Lines by its tables.
pub(crate) fn check_json_lines(rt: &impl Abort, alloc: Global) -> Result<(), NoMemory> {
    check_groups(rt, alloc)?;
    check_levels(rt, alloc)?;
    check_sizes(rt, alloc)?;
    assert_eq!(rt; first_wrong_format(alloc)?, None);
    assert!(rt; are_counted_on(alloc)?);
    Ok(())
}
