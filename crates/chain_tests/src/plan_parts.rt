//! Chains of verbs that are given three records, plans that are run over inputs and outputs in memory, and the parts of
//! a plan by themselves.
ghost use Rattle.std.specs.Prelude.{◌≡◌, [], List, true, IfOk, OnOk};
ghost use Rattle.mlr_event.specs.declared.event.Event.{Event as SpecEvent};
ghost use Rattle.mlr_event.specs.Verb.{Verb as SpecVerb, is_open};
ghost use Rattle.verbs_stream.specs.Meaning.{IsSound as IsSoundSpec};
ghost use Rattle.plan_verbs.specs.Chains.{Represents};
ghost use Rattle.plan_verbs.specs.Plans.{IsSound, can_read_left};
ghost use Rattle.std.specs.List.{list_all};
ghost use Rattle.verb_specs.specs.Verbs.{AreSound, IsVerb};

use crate::plans::{plan_of, read_opts};
use chain_core::{
    Chain, Ended, LeftReader, LeftTurn, Let, Outlet, Plan, ReadTurn, Reader, Serial, SerialTurn,
    Verb, VerbList, VerbSpec, lefts_for, run_serial,
};
use mlr_event::{Ctx, Event, Events, Format, InputName, Names, Target};
use mlr_list::List;
use mlr_record::Record;
use mlr_spec::NoMemory;
use mlr_value::Bytes;
use mlr_world::{Inputs, MemInputs, MemOutputs, Opened};
use std::alloc::{AllocError, Global};
use std::thread;
use std::thread::Threads;
use verbs_join_nest::Join;
use verbs_seq::SeqSpec;
use verbs_stream::{Cat, FillDown, Head, Sec2Gmt, Spec};

/// Appends a verb.
fn push(verbs: &mut VerbList, spec: Spec) -> Result<(), NoMemory>
    requires options { IsSoundSpec spec }
    requires verbs { AreSound verbs.old }
    ensures verbs { OnOk result (AreSound verbs.new) }
    ensures lefts { OnOk result (list_all can_read_left verbs.old ≡ true
        → list_all can_read_left verbs.new ≡ true) }
{
    verbs.push(VerbSpec::Stream(spec))?;
    Ok(())
}

/// The names of a text such as `a,b`.
fn names(alloc: Global, text: &str) -> Result<Names, NoMemory> {
    let mut made = Names::new(alloc);
    for name in text.split(',') {
        made.push(Bytes::copy_of(alloc, name.as_bytes())?)?;
    }
    Ok(made)
}

/// Standard input with a text that comes in pieces of these sizes, and whose calls of these numbers fail.
fn inputs_of(
    alloc: Global,
    text: &str,
    pieces: &[usize],
    failing: &[u64],
) -> Result<MemInputs, NoMemory> {
    let mut contents = Vec::new(alloc);
    contents.push((InputName::Stdin, Bytes::copy_of(alloc, text.as_bytes())?))?;
    let pieces = Vec::from_slice(alloc, pieces)?;
    MemInputs::new(alloc, contents, pieces, Vec::from_slice(alloc, failing)?)
}

/// Outputs with room for a few records.
fn outputs_of(alloc: Global) -> Result<MemOutputs, NoMemory> {
    MemOutputs::new(alloc, Vec::new(alloc), 1000, Vec::new(alloc))
}

/// A verb with its options as plain words, where names are such as `a,b`.
#[derive(Clone, Copy)]
enum Words {
    Head(u64),
    FillDown(&'static str),
    /// The number's name, and the grouping names.
    Cat(&'static str, &'static str),
    Sec2Gmt(&'static str),
}

fn spec_of(alloc: Global, words: Words) -> Result<Spec, NoMemory>
    ensures { IfOk result (λ spec. IsSoundSpec spec) }
{
    match words {
        Words::Head(count) => Ok(Spec::Head(Head {
            count,
            groups: None,
        })),
        Words::FillDown(text) => Ok(Spec::FillDown(FillDown {
            names: names(alloc, text)?,
            blank: false,
        })),
        Words::Cat(name, by) => Ok(Spec::Cat(Cat {
            number: true,
            name: Bytes::copy_of(alloc, name.as_bytes())?,
            groups: Some(names(alloc, by)?),
        })),
        Words::Sec2Gmt(text) => Ok(Spec::Sec2Gmt(Sec2Gmt {
            names: names(alloc, text)?,
        })),
    }
}

/// What a plan reads.
#[derive(Clone, Copy)]
enum Source {
    Stdin,
    /// Standard input, whose first call would fail, and isn't made.
    Unopened,
    /// The same, as the plan reads no input.
    NoInput,
    /// `seqgen` by its start, stop and step, and no input.
    Numbers(i64, i64, i64),
}

/// A plan's verbs that begin with `seqgen`, or no verbs.
fn first_verbs(alloc: Global, source: Source) -> Result<VerbList, NoMemory>
    ensures verbs { IfOk result (λ verbs. AreSound verbs) }
    ensures lefts { IfOk result (λ verbs. list_all can_read_left verbs ≡ true) }
{
    let mut verbs = List::new(alloc);
    if let Source::Numbers(start, stop, step) = source {
        let seq = SeqSpec {
            field: Bytes::copy_of(alloc, b"i")?,
            start,
            stop,
            step,
        };
        if seq.is_sound() {
            verbs.push(VerbSpec::Seq(seq))?;
        }
    }
    Ok(verbs)
}

/// A plan's verbs, of which the first may be `seqgen`.
fn verbs_of(alloc: Global, source: Source, verbs: &[Words]) -> Result<VerbList, NoMemory>
    ensures verbs { IfOk result (λ verbs. AreSound verbs) }
    ensures lefts { IfOk result (λ verbs. list_all can_read_left verbs ≡ true) }
{
    let mut made = first_verbs(alloc, source)?;
    for verb in verbs {
        push(&mut made, spec_of(alloc, *verb)?)?;
    }
    Ok(made)
}

/// The context of record `nr`.
fn at(nr: u64) -> Ctx {
    Ctx {
        nr,
        fnr: nr,
        filenum: 1,
    }
}

/// The numbers of the first records that came out, 9 for an end and 0 where nothing came.
fn numbers(out: &Events) -> [u64; 4] {
    let mut shown = [0; 4];
    for place in 0..4 {
        shown[place] = match out.at(place) {
            Some(Event::Rec(_, ctx)) => ctx.nr,
            Some(Event::End(_)) => 9,
            Some(_) => 8,
            None => 0,
        };
    }
    shown
}

/// Gives a chain three records.
fn take_three(alloc: Global, chain: &mut Chain, out: &mut Events) -> Result<(), NoMemory>
    requires { (verbs : List SpecVerb) × (given : List SpecEvent)
        × Represents verbs given chain.old × (is_open given ≡ true) }
{
    for nr in 1..4 {
        chain.step(Event::Rec(Record::new(alloc)?, at(nr)), out)?;
    }
    Ok(())
}

/// Verbs, what comes out before the first record, what comes out then, and whether the chain is stopped.
type Row = (&'static [Words], [u64; 4], [u64; 4], bool);

/// Whether a chain of such verbs makes this of three records.
fn makes_of_three(alloc: Global, row: &Row) -> Result<bool, NoMemory> {
    let plan = plan_of(alloc, verbs_of(alloc, Source::Stdin, row.0)?, Format::Dkvp)?;
    let lefts = lefts_for(alloc, &plan, Vec::new(alloc))?;
    let mut chain = Chain::new(alloc, &plan, lefts)?;
    let mut first = Events::new(alloc);
    chain.begin(&mut first)?;
    let mut events = Events::new(alloc);
    take_three(alloc, &mut chain, &mut events)?;
    Ok(numbers(&first) == row.1 && numbers(&events) == row.2 && chain.stopped() == row.3)
}

const NONE: [u64; 4] = [0; 4];

/// Heads after one another.
const CHAINS: [Row; 6] = [
    (&[], NONE, [1, 2, 3, 0], false),
    (&[Words::Head(4), Words::Head(5)], NONE, [1, 2, 3, 0], false),
    (&[Words::Head(3)], NONE, [1, 2, 3, 9], true),
    (&[Words::Head(2), Words::Head(1)], NONE, [1, 9, 0, 0], true),
    (&[Words::Head(1), Words::Head(2)], NONE, [1, 9, 0, 0], true),
    (&[Words::Head(1), Words::Head(0)], [9, 0, 0, 0], NONE, true),
];

fn first_wrong_chain(alloc: Global) -> Result<Option<usize>, NoMemory> {
    for (i, row) in CHAINS.iter().enumerate() {
        if !makes_of_three(alloc, row)? {
            return Ok(Some(i));
        }
    }
    Ok(None)
}

/// A plan, and what it makes of standard input with a text.
struct Case {
    name: &'static str,
    source: Source,
    verbs: &'static [Words],
    text: &'static str,
    want: &'static str,
}

/// Plans over standard input, and without it.
const CASES: [Case; 9] = [
    Case {
        name: "no verb",
        source: Source::Stdin,
        verbs: &[],
        text: "a=1\nb=2\n",
        want: "a=1\nb=2\n",
    },
    Case {
        name: "two heads",
        source: Source::Stdin,
        verbs: &[Words::Head(3), Words::Head(2)],
        text: "a=1\na=2\na=3\na=4\n",
        want: "a=1\na=2\n",
    },
    Case {
        name: "a head of no records",
        source: Source::Unopened,
        verbs: &[Words::Head(1), Words::Head(0)],
        text: "a=1\n",
        want: "",
    },
    Case {
        name: "no input",
        source: Source::NoInput,
        verbs: &[],
        text: "a=1\n",
        want: "",
    },
    Case {
        name: "verbs beyond the words",
        source: Source::Stdin,
        verbs: &[
            Words::FillDown("g"),
            Words::Cat("n", "g"),
            Words::Sec2Gmt("t"),
        ],
        text: "g=x,t=0\nt=1500000000\ng=y,t=1\n",
        want: "n=1,g=x,t=1970-01-01T00:00:00Z\nn=2,t=2017-07-14T02:40:00Z,g=x\nn=1,g=y,t=1970-01-01T00:00:01Z\n",
    },
    Case {
        name: "numbers",
        source: Source::Numbers(1, 10, 4),
        verbs: &[Words::Head(2)],
        text: "a=1\n",
        want: "i=1\ni=5\n",
    },
    Case {
        name: "numbers that fall",
        source: Source::Numbers(3, -100, -2),
        verbs: &[Words::Head(2)],
        text: "a=1\n",
        want: "i=3\ni=1\n",
    },
    Case {
        name: "one number",
        source: Source::Numbers(5, 5, -1),
        verbs: &[Words::Head(2)],
        text: "a=1\n",
        want: "i=5\n",
    },
    Case {
        name: "no number",
        source: Source::Numbers(5, 1, 1),
        verbs: &[Words::Head(2)],
        text: "a=1\n",
        want: "",
    },
];

/// Whether a plan makes what the case wants, and ends well.
fn makes(alloc: Global, plan: &Plan, case: &Case) -> Result<bool, NoMemory>
    requires { IsSound plan.now }
{
    let stdin = matches!(case.source, Source::Stdin);
    let failing: &[u64] = if stdin { &[] } else { &[1] };
    let mut inputs = inputs_of(alloc, case.text, &[], failing)?;
    let mut outputs = outputs_of(alloc)?;
    let ended = run_serial(alloc, plan, &mut inputs, &mut outputs);
    let made = outputs.bytes_of(&Target::Stdout) == Some(case.want.as_bytes());
    // The call that fails is still to come.
    let unopened = inputs.open(&InputName::Stdin) == Opened::Failed;
    Ok(ended == Ended::Done && made && (stdin || unopened))
}

/// Whether a copy of a plan does so.
fn copy_makes(alloc: Global, plan: &Plan, case: &Case) -> Result<bool, NoMemory>
    requires { IsSound plan.now }
{
    match plan.copy(alloc) {
        Ok(copy) => makes(alloc, &copy, case),
        Err(error) => Err(error),
    }
}

/// Whether a case's plan and its copy make the wanted text.
fn both_make(alloc: Global, case: &Case) -> Result<bool, NoMemory> {
    let mut plan = plan_of(
        alloc,
        verbs_of(alloc, case.source, case.verbs)?,
        Format::Dkvp,
    )?;
    plan.no_input = matches!(case.source, Source::NoInput);
    Ok(makes(alloc, &plan, case)? && copy_makes(alloc, &plan, case)?)
}

/// The name of the first case whose plan makes another text.
fn first_wrong_plan(alloc: Global) -> Result<Option<&'static str>, NoMemory> {
    for case in CASES.iter() {
        if !both_make(alloc, case)? {
            return Ok(Some(case.name));
        }
    }
    Ok(None)
}

/// The input of the parts that are called one by one.
const TEXT: &str = "a=1,b=xyz\n";

/// Whether a reader goes on with one record, and then comes to the end.
fn read_twice<I: Inputs>(alloc: Global, plan: &Plan, inputs: &mut I) -> Result<bool, NoMemory>
    requires { IsSound plan.now }
{
    let mut reader = Reader::new(alloc, plan)?;
    let mut out = Events::new(alloc);
    match reader.turn(inputs, &mut out) {
        ReadTurn::Went => {}
        _ => return Ok(false),
    }
    let first = numbers(&out) == [1, 0, 0, 0];
    let ended = reader.turn(inputs, &mut out) == ReadTurn::Ended;
    Ok(first && ended && numbers(&out) == [1, 9, 0, 0])
}

/// Whether a run writes the record in its first turn, and is over in the second.
fn run_twice<I: Inputs>(alloc: Global, plan: &Plan, inputs: &mut I) -> Result<bool, NoMemory>
    requires { IsSound plan.now }
{
    let mut outputs = outputs_of(alloc)?;
    let lefts = lefts_for(alloc, plan, Vec::new(alloc))?;
    let mut serial = Serial::new(alloc, plan, lefts)?;
    match serial.turn(inputs, &mut outputs) {
        SerialTurn::Went => {}
        SerialTurn::Over(_) => return Ok(false),
    }
    let text = "[\n{\n  \"a\": 1,\n  \"b\": \"xyz\"\n}";
    let first = outputs.bytes_of(&Target::Stdout) == Some(text.as_bytes());
    let over = serial.turn(inputs, &mut outputs) == SerialTurn::Over(Ended::Done);
    Ok(first && over)
}

/// A pairing with the file L by the field `id`.
fn join_of(alloc: Global) -> Result<VerbSpec, NoMemory>
    ensures { IfOk result (λ spec. IsVerb spec × (can_read_left spec ≡ true)) }
{
    Ok(VerbSpec::Shape(verbs_join_nest::Spec::Join(Join {
        file: InputName::File(Bytes::copy_of(alloc, b"L")?),
        read: read_opts(alloc)?,
        left: names(alloc, "id")?,
        right: names(alloc, "id")?,
        output: names(alloc, "id")?,
        pairs: true,
        left_unpaired: false,
        right_unpaired: false,
        left_prefix: None,
        right_prefix: None,
    })))
}

/// Whether two turns read the left file of a plan, which is one with three records.
fn left_twice<I: Inputs>(alloc: Global, plan: &Plan, inputs: &mut I) -> Result<bool, NoMemory>
    requires { IsSound plan.now }
{
    let mut reader = LeftReader::new(alloc, plan)?;
    match reader.turn(inputs) {
        LeftTurn::Went => {}
        _ => return Ok(false),
    }
    match reader.turn(inputs) {
        LeftTurn::Ended(lefts) => Ok(lefts.len() == 1 && lefts[0].len() == 3),
        _ => Ok(false),
    }
}

/// Whether the left file of a plan is read in two turns.
fn reads_left(alloc: Global) -> Result<bool, NoMemory> {
    let mut verbs = List::new(alloc);
    verbs.push(join_of(alloc)?)?;
    let plan = plan_of(alloc, verbs, Format::Dkvp)?;
    let mut contents = Vec::new(alloc);
    let name = InputName::File(Bytes::copy_of(alloc, b"L")?);
    contents.push((
        name,
        Bytes::copy_of(alloc, b"id=1,a=x\nid=2,a=y\nid=1,a=z\n")?,
    ))?;
    let mut inputs = MemInputs::new(alloc, contents, Vec::new(alloc), Vec::new(alloc))?;
    left_twice(alloc, &plan, &mut inputs)
}

/// Whether an outlet writes a text at once, and can be shut then.
fn writes_text(alloc: Global, plan: &Plan) -> Result<bool, NoMemory>
    requires { IsSound plan.now }
{
    let mut outputs = outputs_of(alloc)?;
    let mut outlet = Outlet::new(alloc, plan)?;
    let text = Event::Text(Bytes::copy_of(alloc, b"1\n")?);
    let went = outlet.take(text, &mut outputs) == Let::Went;
    let held = outputs.bytes_of(&Target::Stdout) == Some(b"1\n");
    Ok(went && held && outlet.shut(&mut outputs) == Let::Over(None))
}

/// How many events a verb makes when it begins.
fn begun(alloc: Global, options: Spec) -> Result<usize, NoMemory>
    requires { IsSoundSpec options }
{
    let spec = VerbSpec::Stream(options);
    let mut verb = Verb::new(alloc, &spec, Events::new(alloc))?;
    let mut out = Events::new(alloc);
    verb.begin(&mut out)?;
    Ok(out.len())
}

/// Whether each part of a plan gives what is wanted of it.
fn parts_give_their_rows(alloc: Global) -> Result<bool, NoMemory> {
    let plan = plan_of(alloc, List::new(alloc), Format::Json)?;
    let read = read_twice(alloc, &plan, &mut inputs_of(alloc, TEXT, &[], &[])?)?;
    let run = run_twice(alloc, &plan, &mut inputs_of(alloc, TEXT, &[], &[])?)?;
    let dkvp = plan_of(alloc, List::new(alloc), Format::Dkvp)?;
    let written = writes_text(alloc, &dkvp)?;
    let cat = spec_of(alloc, Words::Cat("n", "a"))?;
    Ok(read && run && written && begun(alloc, cat)? == 0)
}

/// Moves something into another thread, which drops it.
fn move_into_thread<R: Threads, T: Drop + Send + 'static>(
    rt: &R,
    item: T,
) -> Result<bool, AllocError> {
    let child = thread::spawn(rt, move || {
        drop(item);
        true
    })?;
    Ok(child.join(rt))
}

/// Whether the reader, a verb and the outlet of a plan can be moved into threads.
fn parts_move<R: Threads>(rt: &R, alloc: Global) -> Result<bool, NoMemory> {
    let plan = plan_of(alloc, List::new(alloc), Format::Csv)?;
    let reader = move_into_thread(rt, Reader::new(alloc, &plan)?)?;
    let outlet = move_into_thread(rt, Outlet::new(alloc, &plan)?)?;
    let spec = VerbSpec::Stream(spec_of(alloc, Words::FillDown("a"))?);
    let verb = move_into_thread(rt, Verb::new(alloc, &spec, Events::new(alloc))?)?;
    Ok(reader && outlet && verb)
}

#[test]
fn chains_plans_and_their_parts_make_what_is_wanted(rt: HostRuntime) -> Result<(), NoMemory> {
    let alloc = rt.alloc();
    assert_eq!(rt; first_wrong_chain(alloc)?, None);
    assert_eq!(rt; first_wrong_plan(alloc)?, None);
    assert!(rt; parts_give_their_rows(alloc)?);
    assert!(rt; reads_left(alloc)?);
    assert!(rt; parts_move(&rt, alloc)?);
    Ok(())
}
