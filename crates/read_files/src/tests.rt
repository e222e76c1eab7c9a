//! Inputs in memory, read one after another, and the events that they give, written out.

ghost use Rattle.std.specs.Prelude.{List, Option};
ghost use Rattle.mlr_event.specs.declared.names.InputName.{InputName as SpecName};
ghost use Rattle.mlr_event.specs.declared.options.ReadOpts.{ReadOpts as Options};
ghost use Rattle.mlr_world.specs.Taken.{Take};
ghost use Rattle.read_files.specs.Takes.{After};
ghost use Rattle.read_files.specs.Represents.{Represents};

use crate::{FileReader, ReadTurn, can_read};
use mlr_event::{Ctx, Event, Events, Fault, Format, InputName, ReadOpts};
use mlr_spec::NoMemory;
use mlr_value::{Bytes, append_text};
use mlr_world::{Inputs, MemInputs};
use std::alloc::Global;
use std::test::Fail;

/// More turns than a test takes.
const TURNS: usize = 1000;

/// The name of a file.
fn file(alloc: Global, name: &str) -> Result<InputName, NoMemory> {
    Ok(InputName::File(Bytes::copy_of(alloc, name.as_bytes())?))
}

/// A context as its three numbers: `2.1.2`.
fn append_context(at: Ctx, into: &mut Bytes) -> Result<(), NoMemory> {
    for number in [at.nr, at.fnr, at.filenum] {
        into.append(&[b'.', b'0' + (number % 10) as u8])?;
    }
    Ok(())
}

/// A record as its context and its fields, the end as its context, a fault as its file, line and lengths.
fn append_event(event: &Event, into: &mut Bytes) -> Result<(), NoMemory> {
    match event {
        Event::Rec(record, at) => {
            append_context(*at, into)?;
            for place in 0..record.len() {
                let (name, value) = record.entry(place);
                into.append(b" ")?;
                into.append(name)?;
                into.append(b"=")?;
                append_text(value, into)?;
            }
            into.append(b"; ")
        }
        Event::End(at) => {
            into.append(b"end ")?;
            append_context(*at, into)
        }
        Event::Fault(
            Fault::Length {
                line,
                want,
                have,
                ..
            },
        ) => into.append(&[
            b'!',
            b'0' + (*line % 10) as u8,
            b'!',
            b'0' + (*want % 10) as u8,
            b'!',
            b'0' + (*have % 10) as u8,
        ]),
        _ => into.append(b"~"),
    }
}

fn shown(alloc: Global, events: &Events) -> Result<Bytes, NoMemory> {
    let mut all = Bytes::new(alloc);
    for place in 0..events.len() {
        if let Some(event) = events.at(place) {
            append_event(event, &mut all)?;
        }
    }
    Ok(all)
}

/// Turns until one doesn't go on, and returns what that one returned.
fn turn_all<I: Inputs>(reader: &mut FileReader, inputs: &mut I, out: &mut Events) -> ReadTurn
    requires { (opts : Options) × (names : List SpecName) × (before : Option (List Take))
        × (given : List Take) × Represents opts names given reader.old
        × After before given (I.contents inputs.old) (I.taken inputs.old) (I.open_entry inputs.old) }
{
    for _ in 0..TURNS {
        match reader.turn(inputs, out) {
            ReadTurn::Went => {}
            other => return other,
        }
    }
    ReadTurn::Went
}

/// The events, and what the last turn returned.
#[derive(Drop)]
struct Outcome {
    shown: Bytes,
    last: ReadTurn,
}

/// Reads these names of these files, which come in these pieces and fail at these calls.
fn read(
    alloc: Global,
    opts: ReadOpts,
    files: &[(&str, &str)],
    names: &[&str],
    pieces: &[usize],
    failing: &[u64],
) -> Result<Outcome, NoMemory> {
    let mut contents = Vec::new(alloc);
    for (name, text) in files {
        contents.push((file(alloc, name)?, Bytes::copy_of(alloc, text.as_bytes())?))?;
    }
    let mut inputs = MemInputs::new(
        alloc,
        contents,
        Vec::from_slice(alloc, pieces)?,
        Vec::from_slice(alloc, failing)?,
    )?;
    let mut wanted = Vec::new(alloc);
    for name in names {
        wanted.push(file(alloc, name)?)?;
    }
    let mut out = Events::new(alloc);
    let mut last = ReadTurn::NoMemory;
    if can_read(&opts) {
        let mut reader = FileReader::new(alloc, opts, wanted)?;
        last = turn_all(&mut reader, &mut inputs, &mut out);
    }
    Ok(Outcome {
        shown: shown(alloc, &out)?,
        last,
    })
}

/// Single bytes.
const ONES: [usize; 32] = [1; 32];

/// Inputs, the events that they give, and the name of the input that fails, if one does.
struct Case {
    name: &'static str,
    format: Format,
    files: &'static [(&'static str, &'static str)],
    names: &'static [&'static str],
    events: &'static str,
    failed: Option<&'static str>,
}

const TWO: [(&str, &str); 2] = [("f", "a=1\n"), ("g", "b=2\n")];

/// A file that has a row of another length in its third line.
const FAULTY: [(&str, &str); 1] = [("f", "a,b\n1,2\n3\n")];

/// Files one after another, and ends of the reading. After a fault, no more files are opened.
const CASES: [Case; 5] = [
    Case {
        name: "two files",
        format: Format::Dkvp,
        files: &[("f", "a=1,b=x\na=2"), ("g", "c=3\n")],
        names: &["f", "g"],
        events: ".1.1.1 a=1 b=x; .2.2.1 a=2; .3.1.2 c=3; end .3.1.2",
        failed: None,
    },
    Case {
        name: "no inputs at all",
        format: Format::Dkvp,
        files: &[],
        names: &[],
        events: "end .0.0.0",
        failed: None,
    },
    Case {
        name: "a fault",
        format: Format::Csv,
        files: &FAULTY,
        names: &["f", "none"],
        events: ".1.1.1 a=1 b=2; !3!2!1",
        failed: None,
    },
    Case {
        name: "a name without a file",
        format: Format::Dkvp,
        files: &TWO,
        names: &["f", "none", "g"],
        events: ".1.1.1 a=1; ",
        failed: Some("none"),
    },
    Case {
        name: "an empty file between others",
        format: Format::Dkvp,
        files: &[("f", "a=1\n"), ("none", ""), ("g", "b=2")],
        names: &["f", "none", "g", "none"],
        events: ".1.1.1 a=1; .2.1.3 b=2; end .2.0.4",
        failed: None,
    },
];

#[test]
fn inputs_are_read_one_after_another(rt: HostRuntime) -> Result<(), Fail> {
    let alloc = rt.alloc();
    for case in CASES.iter() {
        for pieces in [ONES.as_slice(), [].as_slice()] {
            let opts = ReadOpts::of(alloc, case.format)?;
            let got = read(alloc, opts, case.files, case.names, pieces, &[])?;
            let last = match case.failed {
                Some(name) => ReadTurn::Failed(file(alloc, name)?),
                None => ReadTurn::Ended,
            };
            let events = case.events.as_bytes();
            assert_eq!(rt; got.shown.as_slice(), events, "{}", case.name);
            assert_eq!(rt; got.last, last, "{}", case.name);
        }
    }
    Ok(())
}

/// A call that fails, the file whose call it is, and the events before it. The calls are open, read and the end of `f`,
/// then those of `g`.
const FAILING: [(u64, &str, &str); 6] = [
    (1, "f", ""),
    (2, "f", ""),
    (3, "f", ".1.1.1 a=1; "),
    (4, "g", ".1.1.1 a=1; "),
    (5, "g", ".1.1.1 a=1; "),
    (6, "g", ".1.1.1 a=1; .2.1.2 b=2; "),
];

#[test]
fn a_call_that_fails_ends_the_reading(rt: HostRuntime) -> Result<(), Fail> {
    let alloc = rt.alloc();
    for row in FAILING.iter() {
        let (failing, name, events) = *row;
        let opts = ReadOpts::of(alloc, Format::Dkvp)?;
        let got = read(alloc, opts, &TWO, &["f", "g"], &[], &[failing])?;
        let last = ReadTurn::Failed(file(alloc, name)?);
        assert_eq!(rt; got.shown.as_slice(), events.as_bytes(), "call {failing}");
        assert_eq!(rt; got.last, last, "call {failing}");
    }
    Ok(())
}

/// A format, a file, and what it gives before the end.
type Row = (Format, &'static str, &'static str);

const FORMATS: [Row; 9] = [
    (Format::Csv, "a,b\n1,2\n", ".1.1.1 a=1 b=2; "),
    (Format::Tsv, "a\tb\n1\t2\n", ".1.1.1 a=1 b=2; "),
    (Format::Dkvp, "a=1,b=2\n", ".1.1.1 a=1 b=2; "),
    (Format::Nidx, "1  2\n", ".1.1.1 1=1 2=2; "),
    (Format::Markdown, "| a |\n| --- |\n| 1 |\n", ".1.1.1 a=1; "),
    (Format::Xtab, "a 1\nb 2\n", ".1.1.1 a=1 b=2; "),
    (Format::Pprint, "a b\n1 2\n", ".1.1.1 a=1 b=2; "),
    (Format::Json, "[{\"a\":1}]", ".1.1.1 a=1; "),
    (Format::Jsonl, "{\"a\":1}\n", ".1.1.1 a=1; "),
];

/// Each format that needs a separator can't be read without one.
const SEPARATED: [(Format, &str, bool); 6] = [
    (Format::Csv, ",", true),
    (Format::Csv, "", false),
    (Format::Tsv, "", false),
    (Format::Dkvp, "", false),
    (Format::Nidx, "", false),
    (Format::Jsonl, "", true),
];

#[test]
fn each_format_is_read(rt: HostRuntime) -> Result<(), Fail> {
    let alloc = rt.alloc();
    for (i, row) in SEPARATED.iter().enumerate() {
        let (format, separator, want) = *row;
        let mut opts = ReadOpts::of(alloc, format)?;
        opts.ifs = Bytes::copy_of(alloc, separator.as_bytes())?;
        assert_eq!(rt; can_read(&opts), want, "separator {i}");
    }
    for (i, row) in FORMATS.iter().enumerate() {
        let (format, text, events) = *row;
        let opts = ReadOpts::of(alloc, format)?;
        let got = read(alloc, opts, &[("f", text)], &["f"], &ONES, &[])?;
        let mut want = Bytes::copy_of(alloc, events.as_bytes())?;
        want.append(b"end .1.1.1")?;
        assert_eq!(rt; got.shown.as_slice(), want.as_slice(), "format {i}");
        assert_eq!(rt; got.last, ReadTurn::Ended, "format {i}");
    }
    Ok(())
}
