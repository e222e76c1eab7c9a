//! Records and texts written in each format.

use crate::fields::record_of;
use mlr_event::{Body, Format};
use mlr_spec::NoMemory;
use mlr_value::Bytes;
use std::alloc::Global;
use writers::{WriteOpts, Writer, growth_law};

/// A flag of the command line.
#[derive(Clone, Copy)]
enum Flag {
    Headerless,
    QuoteAll,
    Barred,
    OneLine,
    NoList,
    Flatten,
    Unflatten,
}

/// The options of a format where no flag is given, and nothing is flattened.
fn plain(alloc: Global, format: Format) -> Result<WriteOpts, NoMemory> {
    let mut opts = WriteOpts::of(alloc, format)?;
    opts.flatten = false;
    Ok(opts)
}

fn set(opts: &mut WriteOpts, flag: Flag) {
    match flag {
        Flag::Headerless => opts.headerless = true,
        Flag::QuoteAll => opts.quote_all = true,
        Flag::Barred => opts.barred = true,
        Flag::OneLine => opts.stacked = false,
        Flag::NoList => opts.listwrap = false,
        Flag::Flatten => opts.flatten = true,
        Flag::Unflatten => opts.unflatten = true,
    }
}

/// A line that begins with `#` is a text, each other one a record.
fn body_of(alloc: Global, line: &[u8]) -> Result<Body, NoMemory> {
    match line {
        [b'#', text @ ..] => Ok(Body::Text(Bytes::copy_of(alloc, text)?)),
        _ => Ok(Body::Rec(record_of(alloc, line)?)),
    }
}

/// What is written of the lines, before the end or with it.
fn written(alloc: Global, opts: &WriteOpts, lines: &[u8], ended: bool) -> Result<Bytes, NoMemory> {
    let mut writer = Writer::new(alloc, opts)?;
    let mut out = Bytes::new(alloc);
    for line in lines.split(|b| *b == b'\n') {
        writer.take(body_of(alloc, line)?, &mut out)?;
    }
    if ended {
        writer.end(&mut out)?;
    }
    Ok(out)
}

/// Records and texts in two runs.
const LINES: &[u8] = b"a=1|bcd=\na=20|bcd=5\n#[text]\ne=6";

/// A format with flags, lines, what is written of them before the end, and what the end adds.
const CASES: [(Format, &[Flag], &[u8], &[u8], &[u8]); 34] = [
    (
        Format::Csv,
        &[],
        LINES,
        b"a,bcd\n1,\n20,5\n[text]\ne\n6\n",
        b"",
    ),
    (
        Format::Tsv,
        &[],
        LINES,
        b"a\tbcd\n1\t\n20\t5\n[text]\ne\n6\n",
        b"",
    ),
    (
        Format::Dkvp,
        &[],
        LINES,
        b"a=1,bcd=\na=20,bcd=5\n[text]e=6\n",
        b"",
    ),
    (Format::Nidx, &[], LINES, b"1 \n20 5\n[text]6\n", b""),
    (
        Format::Json,
        &[Flag::OneLine],
        LINES,
        b"[\n{\"a\": 1, \"bcd\": \"\"},\n{\"a\": 20, \"bcd\": 5}\n[text],\n{\"e\": 6}",
        b"\n]\n",
    ),
    (
        Format::Jsonl,
        &[],
        LINES,
        b"{\"a\": 1, \"bcd\": \"\"}\n{\"a\": 20, \"bcd\": 5}\n[text]{\"e\": 6}\n",
        b"",
    ),
    (
        Format::Xtab,
        &[],
        LINES,
        b"a   1\nbcd \n\na   20\nbcd 5\n[text]\ne 6\n",
        b"",
    ),
    (
        Format::Pprint,
        &[],
        LINES,
        b"[text]a  bcd\n1  -\n20 5\n",
        b"\ne\n6\n",
    ),
    (
        Format::Markdown,
        &[],
        LINES,
        b"| a | bcd |\n| --- | --- |\n| 1 |  |\n| 20 | 5 |\n[text]\n| e |\n| --- |\n| 6 |\n",
        b"",
    ),
    (Format::Csv, &[], b"\na=1\n\na=2", b"a\n1\n\na\n2\n", b""),
    (Format::Dkvp, &[], b"\na=1\n\na=2", b"\na=1\n\na=2\n", b""),
    (
        Format::Json,
        &[],
        b"\na=1\n\na=2",
        b"[\n{},\n{\n  \"a\": 1\n},\n{},\n{\n  \"a\": 2\n}",
        b"\n]\n",
    ),
    (
        Format::Jsonl,
        &[],
        b"\na=1\n\na=2",
        b"{}\n{\"a\": 1}\n{}\n{\"a\": 2}\n",
        b"",
    ),
    (Format::Xtab, &[], b"\na=1\n\na=2", b"a 1\n\na 2\n", b""),
    (
        Format::Xtab,
        &[],
        b"\xc3\xa9=1|\x80b=2",
        b"\xc3\xa9  1\n\x80b 2\n",
        b"",
    ),
    (Format::Pprint, &[], b"\na=1\n\na=2", b"a\n1\n", b"\na\n2\n"),
    (Format::Csv, &[], b"a=x,y|b=z", b"a,b\n\"x,y\",z\n", b""),
    (
        Format::Csv,
        &[],
        b"a=say \"x\"",
        b"a\n\"say \"\"x\"\"\"\n",
        b"",
    ),
    (Format::Csv, &[], b"a\r=x\ry", b"\"a\r\"\n\"x\ry\"\n", b""),
    (Format::Csv, &[], b"=", b"\"\"\n\"\"\n", b""),
    (Format::Csv, &[], b"a=|b=0.5", b"a,b\n,0.5\n", b""),
    (
        Format::Csv,
        &[Flag::Headerless, Flag::QuoteAll],
        b"a=1|b=x y\nc=3",
        b"\"1\",\"x y\"\n\"3\"\n",
        b"",
    ),
    (
        Format::Tsv,
        &[],
        b"a=x\ty\\z|b=",
        b"a\tb\nx\\ty\\\\z\t\n",
        b"",
    ),
    (
        Format::Markdown,
        &[],
        b"a=x\\y",
        b"| a |\n| --- |\n| x\\y |\n",
        b"",
    ),
    (
        Format::Pprint,
        &[Flag::Headerless],
        b"a=1|b=\xc3\xa9\na=20|b=x y\nc=3",
        b"1  \xc3\xa9\n20 x y\n",
        b"\n3\n",
    ),
    (
        Format::Pprint,
        &[Flag::Headerless, Flag::Barred],
        b"a=1|b=\xc3\xa9\na=20|b=x y\nc=3",
        b"+----+-----+\n| 1  | \xc3\xa9   |\n| 20 | x y |\n+----+-----+\n",
        b"\n+---+\n| 3 |\n+---+\n",
    ),
    (
        Format::Pprint,
        &[Flag::Barred],
        b"a=1|b=\xc3\xa9",
        b"",
        b"+---+---+\n| a | b |\n+---+---+\n| 1 | \xc3\xa9 |\n+---+---+\n",
    ),
    (
        Format::Xtab,
        &[],
        b"a_key_of_23_code_points=1|b=2",
        b"a_key_of_23_code_points 1\nb                       2\n",
        b"",
    ),
    (
        Format::Json,
        &[Flag::OneLine, Flag::NoList],
        b"a=1|b=2\n#[text]\nc=3",
        b"{\"a\": 1, \"b\": 2}\n[text]{\"c\": 3}\n",
        b"",
    ),
    (
        Format::Json,
        &[],
        b"#[text]\n#[more]",
        b"[text][more]",
        b"[\n]\n",
    ),
    (
        Format::Csv,
        &[],
        b"a={\"x\": 1, \"y\": {\"z\": [1, 2]}}",
        b"a\n\"{\"\"x\"\": 1, \"\"y\"\": {\"\"z\"\": [1, 2]}}\"\n",
        b"",
    ),
    (
        Format::Dkvp,
        &[Flag::Flatten],
        b"a={\"x\": 1, \"y\": {\"z\": [1, 2]}}",
        b"a.x=1,a.y.z.1=1,a.y.z.2=2\n",
        b"",
    ),
    (
        Format::Json,
        &[],
        b"a={\"x\": 1, \"y\": {\"z\": [1, 2]}}",
        b"[\n{\n  \"a\": {\n    \"x\": 1,\n    \"y\": {\n      \"z\": [1, 2]\n    }\n  }\n}",
        b"\n]\n",
    ),
    (
        Format::Jsonl,
        &[Flag::Unflatten],
        b"a.x=1|a.y=2",
        b"{\"a\": {\"x\": 1, \"y\": 2}}\n",
        b"",
    ),
];

/// What is written of a case before the end, and in all.
fn both_written(
    alloc: Global,
    format: Format,
    flags: &[Flag],
    lines: &[u8],
) -> Result<(Bytes, Bytes), NoMemory> {
    let mut opts = plain(alloc, format)?;
    for flag in flags {
        set(&mut opts, *flag);
    }
    let open = written(alloc, &opts, lines, false)?;
    let whole = written(alloc, &opts, lines, true)?;
    Ok((open, whole))
}

/// Whether a writer with a copy of its options is never broken while there is memory.
fn is_never_broken(alloc: Global) -> Result<bool, NoMemory> {
    let opts = plain(alloc, Format::Dkvp)?;
    let copy = opts.copy(alloc)?;
    let mut out = Bytes::new(alloc);
    let mut writer = Writer::new(alloc, &copy)?;
    writer.take(Body::Text(Bytes::copy_of(alloc, b"text")?), &mut out)?;
    let broken = writer.is_broken();
    writer.end(&mut out)?;
    Ok(copy == opts && !broken && !writer.is_broken() && out.as_slice() == b"text".as_slice())
}

#[test]
fn cases_are_written(rt: HostRuntime) -> Result<(), NoMemory> {
    let alloc = rt.alloc();
    growth_law();
    for (i, case) in CASES.iter().enumerate() {
        let (format, flags, lines, fixed, end) = *case;
        let (open, whole) = both_written(alloc, format, flags, lines)?;
        assert_eq!(rt; open.as_slice(), fixed, "open at {i}");
        let mut want = open;
        want.append(end)?;
        assert_eq!(rt; whole.as_slice(), want.as_slice(), "at {i}");
    }
    assert!(rt; is_never_broken(alloc)?);
    Ok(())
}
