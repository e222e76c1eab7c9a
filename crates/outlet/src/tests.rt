//! Events that come to an outlet, and what standard output then contains.
ghost use Rattle.std.specs.Prelude.{◌≡◌, ◌++◌, List, true, false, IfOk};
ghost use Rattle.mlr_event.specs.declared.event.Event.{Event as SpecEvent};
ghost use Rattle.mlr_event.specs.Verb.{is_last, is_list, is_open};
ghost use Rattle.writers.specs.declared.options.WriteOpts.{WriteOpts as Options};
ghost use Rattle.outlet.specs.Represents.{Represents};

use crate::{Let, Outlet};
use mlr_event::{Body, Ctx, Event, Events, Fault, FileRef, Format, Mode, Piece, StyleId, Target};
use mlr_record::Record;
use mlr_spec::{InferOpts, NoMemory};
use mlr_value::{Bytes, from_data};
use mlr_world::{MemOutputs, Outputs, SureOutputs};
use std::alloc::Global;
use std::test::Fail;
use writers::WriteOpts;

/// A context.
const AT: Ctx = Ctx {
    nr: 1,
    fnr: 1,
    filenum: 1,
};

/// A fault.
const FAULT: Fault = Fault::Quote {
    file: FileRef::Main(1),
    line: 3,
};

/// The record of a line such as `a=1,b=xyz`, whose values are inferred.
fn record_of(alloc: Global, line: &str) -> Result<Record, NoMemory> {
    let mut record = Record::new(alloc)?;
    for field in line.split(',') {
        if let Some((name, text)) = field.split_once('=') {
            let value = from_data(alloc, text.as_bytes(), InferOpts::plain())?;
            record.put(name.as_bytes(), value)?;
        }
    }
    Ok(record)
}

/// A line that begins with `#` is a text, each other one a record.
fn body_of(alloc: Global, line: &str) -> Result<Body, NoMemory> {
    if line.starts_with('#') {
        Ok(Body::Text(Bytes::copy_of(alloc, line.as_bytes())?))
    } else {
        Ok(Body::Rec(record_of(alloc, line)?))
    }
}

/// A piece for a target, of what follows its mark.
fn piece_of(alloc: Global, target: Target, line: &str) -> Result<Event, NoMemory>
    ensures { IfOk result (λ event. is_last event ≡ false) }
{
    let piece = Piece {
        mode: Mode::Append,
        style: StyleId(0),
        body: body_of(alloc, line)?,
    };
    Ok(Event::Out(target, piece))
}

/// The event of a line: a piece for standard output after `1>`, one for standard error after `2>`.
fn event_of(alloc: Global, line: &str) -> Result<Event, NoMemory>
    ensures { IfOk result (λ event. is_last event ≡ false) }
{
    if let Some(line) = line.strip_prefix("1>") {
        return piece_of(alloc, Target::Stdout, line);
    }
    if let Some(line) = line.strip_prefix("2>") {
        return piece_of(alloc, Target::Stderr, line);
    }
    match body_of(alloc, line)? {
        Body::Rec(fields) => Ok(Event::Rec(fields, AT)),
        Body::Text(text) => Ok(Event::Text(text)),
    }
}

/// The events of some lines.
fn events_of(alloc: Global, lines: &str) -> Result<Events, NoMemory>
    ensures { IfOk result (λ events. is_open events ≡ true) }
{
    let mut events = Events::new(alloc);
    for line in lines.split('|') {
        events.push(event_of(alloc, line)?)?;
    }
    Ok(events)
}

/// A list of one event.
fn alone(alloc: Global, event: Event) -> Result<Events, NoMemory>
    ensures { IfOk result (λ events. (before : List SpecEvent) → is_open before ≡ true
        → is_list (before ++ events) ≡ true) }
{
    let mut events = Events::new(alloc);
    events.push(event)?;
    Ok(events)
}

/// Gives the events of each text between `/` with one call, and the last one with another.
fn give_all<O: Outputs>(
    alloc: Global,
    outlet: &mut Outlet,
    texts: &str,
    last: Event,
    outputs: &mut O,
) -> Result<Let, NoMemory>
    requires { (opts : Options) × (before : List SpecEvent) × Represents opts before outlet.old }
{
    for text in texts.split('/') {
        let mut events = events_of(alloc, text)?;
        match outlet.take_all(&mut events, outputs) {
            Let::Went => {}
            other => return Ok(other),
        }
    }
    let mut events = alone(alloc, last)?;
    Ok(outlet.take_all(&mut events, outputs))
}

/// Gives the same events and the last one, each with a call of its own.
fn give_each(
    alloc: Global,
    outlet: &mut Outlet,
    texts: &str,
    last: Event,
    outputs: &mut SureOutputs,
) -> Result<Let, NoMemory>
    requires { (opts : Options) × (before : List SpecEvent) × Represents opts before outlet.old }
{
    for line in texts.split(['/', '|']) {
        match outlet.take(event_of(alloc, line)?, outputs) {
            Let::Went => {}
            other => return Ok(other),
        }
    }
    Ok(outlet.take(last, outputs))
}

/// The last event: a fault, or the end.
fn last(faulty: bool) -> Event {
    if faulty {
        Event::Fault(FAULT)
    } else {
        Event::End(AT)
    }
}

/// A format, events, whether they end in a fault, and what is in standard output.
type Row = (Format, &'static str, bool, &'static str);

const ROWS: [Row; 8] = [
    (
        Format::Csv,
        "a=1,b=2/a=3,b=4|a=5,b=6/c=7",
        false,
        "a,b\n1,2\n3,4\n5,6\n\nc\n7\n",
    ),
    (
        Format::Csv,
        "a=1,b=2/a=3,b=4|a=5,b=6/c=7",
        true,
        "a,b\n1,2\n3,4\n5,6\n\nc\n7\n",
    ),
    // The block is held back until the end comes.
    (
        Format::Pprint,
        "a=1,b=2/a=30,b=4/c=7",
        false,
        "a  b\n1  2\n30 4\n\nc\n7\n",
    ),
    // It doesn't come before a fault.
    (
        Format::Pprint,
        "a=1,b=2/a=30,b=4/c=7",
        true,
        "a  b\n1  2\n30 4\n",
    ),
    (
        Format::Json,
        "a=1/b=2/#x",
        false,
        "[\n{\n  \"a\": 1\n},\n{\n  \"b\": 2\n}\n#x]\n",
    ),
    (
        Format::Json,
        "a=1/b=2",
        true,
        "[\n{\n  \"a\": 1\n},\n{\n  \"b\": 2\n}",
    ),
    // Pieces for standard output come among the others.
    (
        Format::Dkvp,
        "a=1/1>a=2|2>a=3/1>#x|2>#y|#z",
        false,
        "a=1\na=2\n#x#z",
    ),
    (Format::Csv, "2>a=1/2>#x|2>b=2", false, ""),
];

/// The outlet's result for the last event.
fn ending(faulty: bool) -> Let {
    if faulty {
        Let::Over(Some(FAULT))
    } else {
        Let::Over(None)
    }
}

/// The bytes of a target; none if it isn't held.
fn bytes_of<'a>(outputs: &'a SureOutputs, target: &Target) -> &'a [u8] {
    match outputs.bytes_of(target) {
        Some(bytes) => bytes,
        None => b"",
    }
}

/// What is returned at the end of a row's events, with the outputs then.
fn written(alloc: Global, row: &Row, each: bool) -> Result<(Let, SureOutputs), NoMemory> {
    let (format, texts, faulty, _) = *row;
    let mut outlet = Outlet::new(alloc, &WriteOpts::of(alloc, format)?)?;
    let mut outputs = SureOutputs::new(alloc, Vec::new(alloc))?;
    let end = if each {
        give_each(alloc, &mut outlet, texts, last(faulty), &mut outputs)?
    } else {
        give_all(alloc, &mut outlet, texts, last(faulty), &mut outputs)?
    };
    Ok((end, outputs))
}

/// Whether a row's events leave what it says.
fn is_written(alloc: Global, row: &Row, each: bool) -> Result<bool, NoMemory> {
    let (end, outputs) = written(alloc, row, each)?;
    let (_, _, faulty, want) = *row;
    Ok(
        end == ending(faulty)
            && bytes_of(&outputs, &Target::Stdout) == want.as_bytes()
            && bytes_of(&outputs, &Target::Stderr).is_empty(),
    )
}

fn first_wrong(alloc: Global, each: bool) -> Result<Option<usize>, NoMemory> {
    for (i, row) in ROWS.iter().enumerate() {
        if !is_written(alloc, row, each)? {
            return Ok(Some(i));
        }
    }
    Ok(None)
}

#[test]
fn events_are_written_in_lists_as_one_at_a_time(rt: HostRuntime) -> Result<(), NoMemory> {
    let alloc = rt.alloc();
    assert_eq!(rt; first_wrong(alloc, false)?, None);
    assert_eq!(rt; first_wrong(alloc, true)?, None);
    Ok(())
}

#[test]
fn a_list_is_emptied(rt: HostRuntime) -> Result<(), NoMemory> {
    let alloc = rt.alloc();
    let mut outlet = Outlet::new(alloc, &WriteOpts::of(alloc, Format::Dkvp)?)?;
    let mut outputs = SureOutputs::new(alloc, Vec::new(alloc))?;
    let mut events = events_of(alloc, "a=1|b=2")?;
    assert_eq!(rt; outlet.take_all(&mut events, &mut outputs), Let::Went);
    assert_eq!(rt; events.len(), 0);
    assert_eq!(rt;
        bytes_of(&outputs, &Target::Stdout),
        b"a=1\nb=2\n".as_slice()
    );
    Ok(())
}

/// Outputs that hold `before` and LF in standard output, with room for so many bytes, that fail at these calls.
fn outputs(alloc: Global, room: usize, failing: &[u64]) -> Result<MemOutputs, NoMemory> {
    let mut held = Vec::new(alloc);
    held.push((Target::Stdout, Bytes::copy_of(alloc, b"before\n")?))?;
    MemOutputs::new(alloc, held, room, Vec::from_slice(alloc, failing)?)
}

/// The room, the calls that fail, and what is in standard output: a call that fails leaves half of its text.
const FAILING: [(usize, &[u64], &[u8]); 3] = [
    (100, &[1], b"before\na=1\n"),
    (100, &[2], b"before\na=1\nb=2\nc="),
    (10, &[], b"before\na=1\nb=2\nc="),
];

/// Whether a row's calls fail, and leave what it says.
fn fails(alloc: Global, row: &(usize, &[u64], &[u8])) -> Result<bool, NoMemory> {
    let (room, failing, want) = *row;
    let mut outlet = Outlet::new(alloc, &WriteOpts::of(alloc, Format::Dkvp)?)?;
    let mut outputs = outputs(alloc, room, failing)?;
    let texts = "a=1|b=2/c=3/d=4";
    let end = give_all(alloc, &mut outlet, texts, last(false), &mut outputs)?;
    Ok(end == Let::Failed(Target::Stdout) && outputs.bytes_of(&Target::Stdout) == Some(want))
}

fn first_wrong_failure(alloc: Global) -> Result<Option<usize>, NoMemory> {
    for (i, row) in FAILING.iter().enumerate() {
        if !fails(alloc, row)? {
            return Ok(Some(i));
        }
    }
    Ok(None)
}

#[test]
fn a_write_that_fails_ends_the_outlet_and_a_shut_outlet_writes_nothing(
    rt: HostRuntime,
) -> Result<(), NoMemory> {
    let alloc = rt.alloc();
    assert_eq!(rt; first_wrong_failure(alloc)?, None);
    let mut outlet = Outlet::new(alloc, &WriteOpts::of(alloc, Format::Json)?)?;
    let mut outputs = outputs(alloc, 100, &[])?;
    assert_eq!(rt; outlet.shut(&mut outputs), Let::Over(None));
    assert!(rt; outputs.bytes_of(&Target::Stdout) == Some(b"before\n"));
    Ok(())
}
