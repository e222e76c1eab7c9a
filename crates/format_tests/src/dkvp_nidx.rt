//! Files of DKVP, NIDX and Markdown that are read wherever they are cut, and with each byte at each place.

use crate::pieces::{
    AnyByte, FIRST, Group, LATER, Opt, Reads, Text, check_any_byte, check_cuts, counts_on,
    events_of, options,
};
use mlr_event::{FileRef, Format, ReadOpts};
use mlr_spec::NoMemory;
use mlr_value::Bytes;
use read_dkvp_nidx::{LineReader, can_read};
use std::alloc::Global;
use std::process::Abort;

/// The reader of DKVP, NIDX and Markdown.
#[derive(Drop)]
struct Lines<'o> {
    opts: &'o ReadOpts,
}

impl Reads for Lines<'_> {
    fn events(&self, alloc: Global, prefix: &[u8], rest: &[u8]) -> Result<Bytes, NoMemory> {
        if !can_read(self.opts) {
            return Ok(Bytes::new(alloc));
        }
        let reader = LineReader::new(alloc, self.opts, FileRef::Main(1), FIRST)?;
        events_of(alloc, reader, prefix, rest, true)
    }
}

/// Keys, positions where a field has no key, line endings, and keys that repeat.
const DKVP: [Text; 14] = [
    (b"", b""),
    (b"a=1,b=x\n", b"1:a=#1;b=x; "),
    (b"a=1\nb=2", b"1:a=#1; 2:b=#2; "),
    (b"a=1\r\nb=2\r\n", b"1:a=#1; 2:b=#2; "),
    (b"a=1\rb=2\r", b"1:a=1\rb=2\r; "),
    (
        b"\xef\xbb\xbfa=1\n\xef\xbb\xbfb=2\n",
        b"1:a=#1; 2:\xef\xbb\xbfb=#2; ",
    ),
    (b"a=1\n\n\r\nb=2\n", b"1:a=#1; 2:b=#2; "),
    (b"abc,,d=,=e,f=g=h\n", b"1:1=abc;d=;=e;f=g=h; "),
    (b"x,y\n", b"1:1=x;2=y; "),
    (b",\n", b"1: "),
    (b"a=1,a=2,a=3\n", b"1:a=#1;a_2=#2;a_3=#3; "),
    (b"a=1,a_2=2,a=3\n", b"1:a=#1;a_2=#2;a_3=#3; "),
    (b"2=x,y\n", b"1:2=x;2_2=y; "),
    (b"#a=1\n", b"1:#a=#1; "),
];

/// Comments are events of their own.
const COMMENTED: [Text; 4] = [
    (b"%%a\na=1\n", b"%%a\n 1:a=#1; "),
    (b"a=1\n%%\r\n%%b", b"1:a=#1; %%\n %%b\n "),
    (b"%a\n", b"1:1=%a; "),
    (b" %%a\n", b"1:1= %%a; "),
];

/// Comments are skipped, and separators have two bytes.
const SKIPPED: [Text; 2] = [
    (b"#a\n#\nb;;c:=d;e\n#", b"1:1=b;c=d;e; "),
    (b"b;;;;c:d\n", b"1:1=b;3=c:d; "),
];

/// Words between spaces, named by position.
const NIDX: [Text; 5] = [
    (b"a b  c\n", b"1:1=a;2=b;3=c; "),
    (b"  a b  \r\n", b"1:1=a;2=b; "),
    (b"  \n\na", b"1:1=a; "),
    (b"a=1\tb\n", b"1:1=a=1\tb; "),
    (b"\xef\xbb\xbfa b", b"1:1=a;2=b; "),
];

/// Tables with their rules and escapes, and tables with faults.
const TABLES: [Text; 10] = [
    (
        b"| a | b |\n| --- | :-: |\n| 1 | x y |\n|2||\n",
        b"1:a=#1;b=x y; 2:a=#2;b=; ",
    ),
    (
        b"|a|\r\n|-|\r\n|1|\r\n\r\n|b|\n|-|\n|2|",
        b"1:a=#1; 2:b=#2; ",
    ),
    (b"|a|b|\n|-|-|\n|x\\|y|z|\n", b"1:a=x|y;b=z; "),
    (b"|a|a|\n|-|-|\n|1|2|\n", b"1:a=#1;a_2=#2; "),
    (b"|a|b|\n|-|-|\n|1|\n|2|3|\n", b"!3!2!1 "),
    (b"|a|\n|-|-|\n|1|\n", b"!2!1!2 "),
    (b"|a|\n|x|\n|1|\n", b"?2 "),
    (b"|a|\n|-|\n|1|\n2\n3\n", b"1:a=#1; ?4 "),
    (b"a\n", b"?1 "),
    (b"|a|\n", b""),
];

/// The options under which each table of files is read.
const GROUPS: [Group; 11] = [
    ("dkvp", Format::Dkvp, &[], &DKVP),
    ("pass", Format::Dkvp, &[Opt::Pass(b"%%")], &COMMENTED),
    (
        "skip",
        Format::Dkvp,
        &[Opt::Skip(b"#"), Opt::Ifs(b";;"), Opt::Ips(b":=")],
        &SKIPPED,
    ),
    (
        "repeats",
        Format::Dkvp,
        &[Opt::Repeats],
        &[(b"a=1,b=2,a=3\n", b"1:a=#3;b=#2; ")],
    ),
    (
        "nidx",
        Format::Nidx,
        &[Opt::Ifs(b" "), Opt::Ips(b"")],
        &NIDX,
    ),
    (
        "markdown",
        Format::Markdown,
        &[Opt::Ifs(b""), Opt::Ips(b"")],
        &TABLES,
    ),
    (
        "cells repeat",
        Format::Markdown,
        &[Opt::Ifs(b""), Opt::Ips(b""), Opt::Repeats],
        &[(b"|a|b|a|\n|-|-|-|\n|1|2|3|\n", b"1:a=#3;b=#2; ")],
    ),
    ("no ifs", Format::Dkvp, &[Opt::Ifs(b"")], &[]),
    ("no ips", Format::Dkvp, &[Opt::Ips(b"")], &[]),
    ("nidx, no ifs", Format::Nidx, &[Opt::Ifs(b"")], &[]),
    ("csv", Format::Csv, &[], &[]),
];

/// Whether the numbers of records go on from file to file.
fn are_counted_on(alloc: Global) -> Result<bool, NoMemory> {
    let opts = ReadOpts::of(alloc, Format::Dkvp)?;
    if !can_read(&opts) {
        return Ok(false);
    }
    let reader = LineReader::new(alloc, &opts, FileRef::Main(3), LATER)?;
    counts_on(alloc, reader, b"a=1\nb=2", b"8:a=#1; 9:b=#2; ")
}

/// Files in which each byte in turn takes each place.
const ANY_BYTE: [AnyByte; 3] = [
    (Format::Dkvp, &[Opt::Pass(b"#")], b"a=1\r\n#\n,b"),
    (
        Format::Nidx,
        &[Opt::Ifs(b" "), Opt::Ips(b""), Opt::Pass(b"#")],
        b" a\r\n#\nb ",
    ),
    (
        Format::Markdown,
        &[Opt::Ifs(b""), Opt::Ips(b""), Opt::Pass(b"#")],
        b"|a|\r\n|-|\n|\\|",
    ),
];

/// Checks each group of texts, wherever they are cut.
fn check_groups(rt: &impl Abort, alloc: Global) -> Result<(), NoMemory> {
    for group in GROUPS.iter() {
        let (name, format, changes, texts) = *group;
        let opts = options(alloc, format, changes)?;
        assert_eq!(rt; can_read(&opts), !texts.is_empty(), "{name}");
        check_cuts(rt, alloc, name, &Lines { opts: &opts }, texts)?;
    }
    Ok(())
}

/// Checks each file with each byte at each place.
fn check_bytes(rt: &impl Abort, alloc: Global) -> Result<(), NoMemory> {
    for row in ANY_BYTE.iter() {
        let (format, changes, text) = *row;
        let opts = options(alloc, format, changes)?;
        check_any_byte(rt, alloc, &Lines { opts: &opts }, text)?;
    }
    Ok(())
}

/// Checks the readers of DKVP, NIDX and Markdown by their tables.
pub(crate) fn check_dkvp_nidx(rt: &impl Abort, alloc: Global) -> Result<(), NoMemory> {
    check_groups(rt, alloc)?;
    check_bytes(rt, alloc)?;
    assert!(rt; are_counted_on(alloc)?);
    Ok(())
}
