//! Files of XTAB and PPRINT that are read wherever they are cut, and with each byte at each place.

use crate::pieces::{
    AnyByte, FIRST, Group, LATER, Opt, Reads, Text, check_any_byte, check_cuts, counts_on,
    events_of, options,
};
use mlr_event::{FileRef, Format, ReadOpts};
use mlr_spec::NoMemory;
use mlr_value::Bytes;
use read_xtab_pprint::{BlockReader, can_read};
use std::alloc::Global;
use std::process::Abort;

/// The reader of XTAB and PPRINT.
#[derive(Drop)]
struct Blocks<'o> {
    opts: &'o ReadOpts,
    /// Whether a file ends with its text, and no more bytes may follow.
    ends: bool,
}

impl Reads for Blocks<'_> {
    fn events(&self, alloc: Global, prefix: &[u8], rest: &[u8]) -> Result<Bytes, NoMemory> {
        if !can_read(self.opts) {
            return Ok(Bytes::new(alloc));
        }
        let reader = BlockReader::new(alloc, self.opts, FileRef::Main(1), FIRST)?;
        events_of(alloc, reader, prefix, rest, self.ends)
    }
}

/// Tables with and without bars, line endings, and tables with faults.
const TABLES: [Text; 14] = [
    (b"", b""),
    (b"a   b\n1   xyz\n22  3\n", b"1:a=#1;b=xyz; 2:a=#22;b=#3; "),
    (b" a b \r\n  1  2\r\n", b"1:a=#1;b=#2; "),
    (b"\xef\xbb\xbfa\n1", b"1:a=#1; "),
    (b"a\n1\n\n\n+\nb c\n2 3\n", b"1:a=#1; 2:b=#2;c=#3; "),
    (
        b"+---+---+\n| a | b |\n+---+---+\n| 1 | x |\n+---+---+\n",
        b"1:a=#1;b=x; ",
    ),
    (b"| a |\n1\n", b"1:a=#1; "),
    (b"a b\n1\n2 3\n", b"!2!2!1 "),
    (b"a b\n1 2\n3 4 5\n\n6\n", b"1:a=#1;b=#2; !3!2!3 "),
    (b"a\n| 1\n2\n", b"?2 "),
    (b"a\n||\n", b"?2 "),
    (b"a\n1\n|\n", b"1:a=#1; ?3 "),
    (b"| a | b\n", b"?1 "),
    (b"a a\n1 2\n", b"1:a=#1;a_2=#2; "),
];

/// Records that end with empty lines, line endings, gaps, and keys that repeat.
const RECORDS: [Text; 13] = [
    (b"", b""),
    (b"\n\n", b""),
    (b"a 1\nbcd x\n", b"1:a=#1;bcd=x; "),
    (b"a 1\nb 2\n\na 3\n", b"1:a=#1;b=#2; 2:a=#3; "),
    (b"a 1\n\n\n\nb 2", b"1:a=#1; 2:b=#2; "),
    (b"a    x  y z \n", b"1:a=x  y z ; "),
    (b"  a 1\n", b"1:a=#1; "),
    (b"a\nb \n", b"1:a=;b=; "),
    (b"a 1\r\n\r\nb 2\r\n", b"1:a=#1; 2:b=#2; "),
    (b"a 1\n   \nb 2\n", b"1:a=#1; 2:b=#2; "),
    (b"a 1\n  ", b"1:a=#1; "),
    (b"a 1\na 2\na 3\n", b"1:a=#1;a_2=#2;a_3=#3; "),
    (b"\xef\xbb\xbfa 1\n\n#b 2\n", b"1:a=#1; 2:#b=#2; "),
];

/// A comment within a record is written before that record.
const XTAB_PASSED: [Text; 4] = [
    (b"a 1\n%%x\nb 2\n", b"%%x\n 1:a=#1;b=#2; "),
    (b"a 1\n\n%%x\r\n%%y\n\nb 2", b"1:a=#1; %%x\n %%y\n 2:b=#2; "),
    (b"a 1\n%%", b"%%\n 1:a=#1; "),
    (b" %%a 1\n", b"1:%%a=#1; "),
];

/// A comment within a table is written at its place.
const PPRINT_PASSED: [Text; 2] = [
    (b"#x\na\n#y\n1\n#", b"#x\n #y\n 1:a=#1; #\n "),
    (b"a b\n1\n#\n", b"!2!2!1 "),
];

/// The options under which each table of files is read.
const GROUPS: [Group; 10] = [
    ("pprint", Format::Pprint, &[], &TABLES),
    ("xtab", Format::Xtab, &[], &RECORDS),
    (
        "repeats",
        Format::Xtab,
        &[Opt::Repeats],
        &[(b"a 1\nb 2\na 3\n", b"1:a=#3;b=#2; ")],
    ),
    (
        "cells repeat",
        Format::Pprint,
        &[Opt::Repeats],
        &[(b"a b a\n1 2 3\n", b"1:a=#3;b=#2; ")],
    ),
    ("pass", Format::Xtab, &[Opt::Pass(b"%%")], &XTAB_PASSED),
    (
        "skip",
        Format::Xtab,
        &[Opt::Skip(b"#")],
        &[(b"#a\na 1\n#\nb 2\n#", b"1:a=#1;b=#2; ")],
    ),
    (
        "pprint, pass",
        Format::Pprint,
        &[Opt::Pass(b"#")],
        &PPRINT_PASSED,
    ),
    (
        "pprint, skip",
        Format::Pprint,
        &[Opt::Skip(b"+")],
        &[(b"+\na\n+\n1\n", b"1:a=#1; ")],
    ),
    ("markdown", Format::Markdown, &[], &[]),
    ("csv", Format::Csv, &[], &[]),
];

/// Prefixes of files with comments, and their events while more bytes may follow.
const PREFIXES: [Text; 6] = [
    (b"%%x\na 1\n", b""),
    (b"a 1\n%%x\n\r", b""),
    (b"a 1\n%%x\n\r\n", b"%%x\n 1:a=#1; "),
    (b"a 1\n  \n%%x\nb 2\n", b"1:a=#1; "),
    (b"a 1\n\n%%x\n\n%%y\n", b"1:a=#1; %%x\n "),
    (b"\xef\xbb\xbf%%x\n\nb 2", b"%%x\n "),
];

/// Whether the numbers of records go on from file to file.
fn are_counted_on(alloc: Global) -> Result<bool, NoMemory> {
    let opts = ReadOpts::of(alloc, Format::Xtab)?;
    if !can_read(&opts) {
        return Ok(false);
    }
    let reader = BlockReader::new(alloc, &opts, FileRef::Main(3), LATER)?;
    counts_on(alloc, reader, b"a 1\n\nb 2\n", b"8:a=#1; 9:b=#2; ")
}

/// Files in which each byte in turn takes each place.
const ANY_BYTE: [AnyByte; 2] = [
    (Format::Xtab, &[Opt::Pass(b"#")], b"a 1\r\n#\n\nb"),
    (Format::Pprint, &[Opt::Pass(b"#")], b"a\n| 1 |\r\n#"),
];

/// Checks the events of prefixes of files.
fn check_prefixes(rt: &impl Abort, alloc: Global) -> Result<(), NoMemory> {
    let opts = options(alloc, Format::Xtab, &[Opt::Pass(b"%%")])?;
    let reader = Blocks {
        opts: &opts,
        ends: false,
    };
    check_cuts(rt, alloc, "prefixes", &reader, &PREFIXES)
}

/// Checks each group of texts, wherever they are cut.
fn check_groups(rt: &impl Abort, alloc: Global) -> Result<(), NoMemory> {
    for group in GROUPS.iter() {
        let (name, format, changes, texts) = *group;
        let opts = options(alloc, format, changes)?;
        assert_eq!(rt; can_read(&opts), !texts.is_empty(), "{name}");
        let ends = true;
        check_cuts(rt, alloc, name, &Blocks { opts: &opts, ends }, texts)?;
    }
    Ok(())
}

/// Checks each file with each byte at each place.
fn check_bytes(rt: &impl Abort, alloc: Global) -> Result<(), NoMemory> {
    for row in ANY_BYTE.iter() {
        let (format, changes, text) = *row;
        let opts = options(alloc, format, changes)?;
        let ends = true;
        check_any_byte(rt, alloc, &Blocks { opts: &opts, ends }, text)?;
    }
    Ok(())
}

/// Checks the readers of XTAB and PPRINT by their tables.
pub(crate) fn check_xtab_pprint(rt: &impl Abort, alloc: Global) -> Result<(), NoMemory> {
    check_groups(rt, alloc)?;
    check_prefixes(rt, alloc)?;
    check_bytes(rt, alloc)?;
    assert!(rt; are_counted_on(alloc)?);
    Ok(())
}
