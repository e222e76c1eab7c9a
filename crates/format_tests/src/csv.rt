//! Files of CSV and TSV that are read wherever they are cut, with each byte at each place, and long ones.

use crate::csv_files::GROUPS;
use crate::pieces::{
    AnyByte, FIRST, LATER, Opt, Reads, check_any_byte, check_cuts, counts_on, events_of, options,
};
use itoa::Buffer;
use mlr_event::{FileRef, Format, ReadOpts};
use mlr_spec::NoMemory;
use mlr_value::Bytes;
use read_csv::{CsvReader, can_read};
use std::alloc::Global;
use std::process::Abort;

/// The reader of CSV and TSV.
#[derive(Drop)]
struct Csv<'o> {
    opts: &'o ReadOpts,
}

impl Reads for Csv<'_> {
    fn events(&self, alloc: Global, prefix: &[u8], rest: &[u8]) -> Result<Bytes, NoMemory> {
        if !can_read(self.opts) {
            return Ok(Bytes::new(alloc));
        }
        let reader = CsvReader::new(alloc, self.opts, FileRef::Main(1), FIRST)?;
        events_of(alloc, reader, prefix, rest, true)
    }
}

/// Whether the numbers of records go on from file to file.
fn are_counted_on(alloc: Global) -> Result<bool, NoMemory> {
    let opts = ReadOpts::of(alloc, Format::Csv)?;
    if !can_read(&opts) {
        return Ok(false);
    }
    let reader = CsvReader::new(alloc, &opts, FileRef::Main(3), LATER)?;
    counts_on(alloc, reader, b"a\n1\n2", b"8:a=#1; 9:a=#2; ")
}

/// Files in which each byte in turn takes each place.
const ANY_BYTE: [AnyByte; 2] = [
    (Format::Csv, &[Opt::Pass(b"#")], b"a,b\r\n\"1\n\"\"\",2\n"),
    (Format::Tsv, &[Opt::Ragged], b"a\tb\n\\t\t2\r\n"),
];

/// A text as a start, a part that is repeated, in which `%` represents the number of the part, and an end.
type Parts = (&'static [u8], &'static [u8], &'static [u8]);

/// A file and its events, in parts that are repeated a number of times.
struct Long {
    opts: &'static [Opt],
    times: usize,
    file: Parts,
    events: Parts,
}

/// A row of 10000 columns, and a field of 20000 lines.
const LONG: [Long; 2] = [
    Long {
        opts: &[Opt::Implicit],
        times: 9_999,
        file: (b"", b"%,", b"10000"),
        events: (b"1:", b"%=#%;", b"10000=#10000; "),
    },
    Long {
        opts: &[],
        times: 20_000,
        file: (
            b"a\n\"",
            b"a line of a field with \"\"quotes\"\" that goes on..\r\n",
            b"\"\n",
        ),
        events: (
            b"1:a=",
            b"a line of a field with \"quotes\" that goes on..\r\n",
            b"; ",
        ),
    },
];

/// The text of a long file or of its events.
fn text_of(alloc: Global, parts: &Parts, times: usize) -> Result<Bytes, NoMemory> {
    let (start, part, end) = *parts;
    let mut text = Bytes::copy_of(alloc, start)?;
    for place in 0..times {
        let mut buffer = Buffer::new();
        let number = buffer.format(place + 1).as_bytes();
        for byte in part {
            if *byte == b'%' {
                text.append(number)?;
            } else {
                text.append(&[*byte])?;
            }
        }
    }
    text.append(end)?;
    Ok(text)
}

/// The first long file that gives other events.
fn first_wrong_long(alloc: Global) -> Result<Option<usize>, NoMemory> {
    for (i, row) in LONG.iter().enumerate() {
        let opts = options(alloc, Format::Csv, row.opts)?;
        let text = text_of(alloc, &row.file, row.times)?;
        let (prefix, rest) = text.as_slice().split_at(text.len() / 2);
        let events = Csv { opts: &opts }.events(alloc, prefix, rest)?;
        if events != text_of(alloc, &row.events, row.times)? {
            return Ok(Some(i));
        }
    }
    Ok(None)
}

/// Checks each group of texts, wherever they are cut.
fn check_groups(rt: &impl Abort, alloc: Global) -> Result<(), NoMemory> {
    for group in GROUPS.iter() {
        let (name, format, changes, texts) = *group;
        let opts = options(alloc, format, changes)?;
        assert_eq!(rt; can_read(&opts), !texts.is_empty(), "{name}");
        check_cuts(rt, alloc, name, &Csv { opts: &opts }, texts)?;
    }
    Ok(())
}

/// Checks each file with each byte at each place.
fn check_bytes(rt: &impl Abort, alloc: Global) -> Result<(), NoMemory> {
    for row in ANY_BYTE.iter() {
        let (format, changes, text) = *row;
        let opts = options(alloc, format, changes)?;
        check_any_byte(rt, alloc, &Csv { opts: &opts }, text)?;
    }
    Ok(())
}

/// Checks the reader of CSV and TSV by its tables.
pub(crate) fn check_csv(rt: &impl Abort, alloc: Global) -> Result<(), NoMemory> {
    check_groups(rt, alloc)?;
    check_bytes(rt, alloc)?;
    assert!(rt; are_counted_on(alloc)?);
    assert_eq!(rt; first_wrong_long(alloc)?, None);
    Ok(())
}
