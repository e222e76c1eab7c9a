//! The worked examples, over inputs and outputs in memory, and runs of which a call fails.
use crate::test_rows::{DKVP, NAMED, NUMBERS, OTHERS, REFUSED, Row, VERBS, WRITTEN};
use crate::worked_rows::WORKED;
use crate::{Ended, Refusal, Why, run_mlr};
use mlr_event::{InputName, Target};
use mlr_spec::NoMemory;
use mlr_value::Bytes;
use mlr_world::{MemInputs, MemOutputs};
use std::alloc::Global;
use std::sync::Wait;
use std::thread::Threads;

/// What a run leaves.
#[derive(Drop)]
struct Left {
    ended: Ended,
    outputs: MemOutputs,
}

/// Files, which the runs may name.
const FILES: [(&str, &str); 3] = [
    ("f", "a,b\n1,2\n"),
    ("g", "b\n3\n4,5\n"),
    ("L", "id=1,a=x\nid=2,a=y\nid=1,a=z\n"),
];

/// Runs words over these files and a standard input, which come in these pieces and fail at these calls.
fn run<R: Threads + Wait + Copy + Send + 'static>(
    rt: &R,
    alloc: Global,
    words: &str,
    input: &[u8],
    pieces: &[usize],
    failing: &[u64],
    mut outputs: MemOutputs,
) -> Result<Left, NoMemory> {
    let mut given = Vec::new(alloc);
    for word in words.split(' ') {
        given.push(Bytes::copy_of(alloc, word.as_bytes())?)?;
    }
    let mut contents = Vec::new(alloc);
    contents.push((InputName::Stdin, Bytes::copy_of(alloc, input)?))?;
    for (name, text) in FILES {
        let name = InputName::File(Bytes::copy_of(alloc, name.as_bytes())?);
        contents.push((name, Bytes::copy_of(alloc, text.as_bytes())?))?;
    }
    let inputs = MemInputs::new(
        alloc,
        contents,
        Vec::from_slice(alloc, pieces)?,
        Vec::from_slice(alloc, failing)?,
    )?;
    let env = Vec::new(alloc);
    let (ended, _inputs) = run_mlr(rt, alloc, &given, &env, inputs, &mut outputs);
    Ok(Left { ended, outputs })
}

/// Outputs whose standard output holds this, with room for so many bytes, that fail at these calls.
fn outputs(
    alloc: Global,
    before: &str,
    room: usize,
    failing: &[u64],
) -> Result<MemOutputs, NoMemory> {
    let mut held = Vec::new(alloc);
    if !before.is_empty() {
        held.push((Target::Stdout, Bytes::copy_of(alloc, before.as_bytes())?))?;
    }
    MemOutputs::new(alloc, held, room, Vec::from_slice(alloc, failing)?)
}

/// The bytes of a target; none if it isn't held.
fn bytes_of<'a>(outputs: &'a MemOutputs, target: &Target) -> &'a [u8] {
    match outputs.bytes_of(target) {
        Some(bytes) => bytes,
        None => b"",
    }
}

/// Whether a row's run leaves what it says, with the input cut at one place.
fn is_left<R: Threads + Wait + Copy + Send + 'static>(
    rt: &R,
    alloc: Global,
    row: &Row,
    cut: usize,
) -> Result<bool, NoMemory> {
    let (words, input, out, message, status) = *row;
    let outputs = outputs(alloc, "", 1000, &[])?;
    let left = run(rt, alloc, words, input.as_bytes(), &[cut, 1], &[], outputs)?;
    Ok(
        bytes_of(&left.outputs, &Target::Stdout) == out.as_bytes()
            && bytes_of(&left.outputs, &Target::Stderr) == message.as_bytes()
            && left.ended.status() == status,
    )
}

/// The first place where the input is cut and the run leaves something else.
fn first_wrong_cut<R: Threads + Wait + Copy + Send + 'static>(
    rt: &R,
    alloc: Global,
    row: &Row,
) -> Result<Option<usize>, NoMemory> {
    for cut in 0..row.1.len() + 1 {
        if !is_left(rt, alloc, row, cut)? {
            return Ok(Some(cut));
        }
    }
    Ok(None)
}

/// The words of the first row that leaves something else, and the place where its input is cut.
fn first_wrong<R: Threads + Wait + Copy + Send + 'static>(
    rt: &R,
    alloc: Global,
    rows: &[Row],
) -> Result<Option<(&'static str, usize)>, NoMemory> {
    for row in rows.iter() {
        if let Some(cut) = first_wrong_cut(rt, alloc, row)? {
            return Ok(Some((row.0, cut)));
        }
    }
    Ok(None)
}

#[test]
fn formats_are_the_same_wherever_the_input_is_cut(rt: HostRuntime) -> Result<(), NoMemory> {
    let alloc = rt.alloc();
    assert_eq!(rt; first_wrong(&rt, alloc, &WORKED)?, None);
    assert_eq!(rt; first_wrong(&rt, alloc, &DKVP)?, None);
    assert_eq!(rt; first_wrong(&rt, alloc, &OTHERS)?, None);
    assert_eq!(rt; first_wrong(&rt, alloc, &WRITTEN)?, None);
    assert_eq!(rt; first_wrong(&rt, alloc, &NAMED)?, None);
    Ok(())
}

#[test]
fn verbs_are_the_same_wherever_the_input_is_cut(rt: HostRuntime) -> Result<(), NoMemory> {
    let alloc = rt.alloc();
    assert_eq!(rt; first_wrong(&rt, alloc, &VERBS)?, None);
    assert_eq!(rt; first_wrong(&rt, alloc, &NUMBERS)?, None);
    assert_eq!(rt; first_wrong(&rt, alloc, &REFUSED)?, None);
    Ok(())
}

/// What a run writes.
#[derive(Clone, Copy)]
enum Text {
    Whole(&'static [u8]),
    /// A prefix of this, as a call of the outputs fails.
    PrefixOf(&'static [u8]),
}

/// A run over outputs in memory, and how it ends.
struct Case {
    name: &'static str,
    words: &'static str,
    input: &'static [u8],
    pieces: &'static [usize],
    /// The calls of the inputs that fail.
    unread: &'static [u64],
    /// What standard output holds before the run.
    before: &'static str,
    room: usize,
    /// The calls of the outputs that fail.
    unwritten: &'static [u64],
    ended: &'static str,
    status: u8,
    out: Text,
    message: Text,
}

/// Runs of which a call fails, or would fail, and outputs that are full or hold something.
const CASES: [Case; 11] = [
    Case {
        name: "bytes that are no plain text",
        words: "--ojson cat",
        input: b"\xef\xbb\xbfa=\xff\x01\n",
        pieces: &[2, 1],
        unread: &[],
        before: "",
        room: 1000,
        unwritten: &[],
        ended: "done",
        status: 0,
        out: Text::Whole(b"[\n{\n  \"a\": \"\xff\\u0001\"\n}\n]\n"),
        message: Text::Whole(b""),
    },
    Case {
        name: "the open fails",
        words: "--ojson cat",
        input: b"a=1\nb=2\n",
        pieces: &[4, 1],
        unread: &[1],
        before: "",
        room: 1000,
        unwritten: &[],
        ended: "read",
        status: 1,
        out: Text::Whole(b""),
        message: Text::Whole(b"mlr: cannot read (stdin)\n"),
    },
    // The third call is the second read, before which the first record is written.
    Case {
        name: "the second read fails",
        words: "cat",
        input: b"x=1\nx=2\n",
        pieces: &[4],
        unread: &[3],
        before: "",
        room: 1000,
        unwritten: &[],
        ended: "read",
        status: 1,
        out: Text::Whole(b"x=1\n"),
        message: Text::Whole(b"mlr: cannot read (stdin)\n"),
    },
    Case {
        name: "a write fails",
        words: "cat",
        input: b"a=1\n",
        pieces: &[],
        unread: &[],
        before: "",
        room: 1000,
        unwritten: &[1],
        ended: "written",
        status: 1,
        out: Text::PrefixOf(b"a=1\n"),
        message: Text::Whole(b"mlr: cannot write (stdout)\n"),
    },
    Case {
        name: "no room for the text, nor for the message",
        words: "--ojson cat",
        input: b"a=1\n",
        pieces: &[],
        unread: &[],
        before: "",
        room: 7,
        unwritten: &[],
        ended: "written",
        status: 1,
        out: Text::Whole(b"[\n{\n  \""),
        message: Text::Whole(b""),
    },
    Case {
        name: "a message that is not written changes nothing in how the run ends",
        words: "tee",
        input: b"",
        pieces: &[],
        unread: &[],
        before: "",
        room: 1000,
        unwritten: &[1],
        ended: "word 1 is not built",
        status: 1,
        out: Text::Whole(b""),
        message: Text::PrefixOf(b"mlr: word 1: not built: tee\n"),
    },
    Case {
        name: "what standard output holds stays",
        words: "--ojson cat",
        input: b"",
        pieces: &[],
        unread: &[],
        before: "before\n",
        room: 1000,
        unwritten: &[],
        ended: "done",
        status: 0,
        out: Text::Whole(b"before\n[\n]\n"),
        message: Text::Whole(b""),
    },
    Case {
        name: "a head of no records at the end opens nothing",
        words: "head -n 1 then head -n 0",
        input: b"a=1\n",
        pieces: &[],
        unread: &[1],
        before: "",
        room: 1000,
        unwritten: &[],
        ended: "done",
        status: 0,
        out: Text::Whole(b""),
        message: Text::Whole(b""),
    },
    Case {
        name: "a head of no records opens no file",
        words: "head -n 0 then cat none f",
        input: b"a=1\n",
        pieces: &[],
        unread: &[1],
        before: "",
        room: 1000,
        unwritten: &[],
        ended: "done",
        status: 0,
        out: Text::Whole(b""),
        message: Text::Whole(b""),
    },
    // The third call is the second read, which comes only where the first record does not end the run.
    Case {
        name: "the second read is not made",
        words: "head -n 1",
        input: b"a=1\na=2\n",
        pieces: &[4],
        unread: &[3],
        before: "",
        room: 1000,
        unwritten: &[],
        ended: "done",
        status: 0,
        out: Text::Whole(b"a=1\n"),
        message: Text::Whole(b""),
    },
    Case {
        name: "the second read is made",
        words: "head -n 2",
        input: b"a=1\na=2\n",
        pieces: &[4],
        unread: &[3],
        before: "",
        room: 1000,
        unwritten: &[],
        ended: "read",
        status: 1,
        out: Text::Whole(b"a=1\n"),
        message: Text::Whole(b"mlr: cannot read (stdin)\n"),
    },
];

/// The words for how a run ended.
fn words_of(ended: &Ended) -> &'static str {
    match ended {
        Ended::Done => "done",
        Ended::Read(InputName::Stdin) => "read",
        Ended::Written(Target::Stdout) => "written",
        Ended::Refused(
            Refusal {
                word: 1,
                why: Why::NotBuilt,
            },
        ) => "word 1 is not built",
        _ => "other",
    }
}

fn is_as(made: &[u8], want: Text) -> bool {
    match want {
        Text::Whole(text) => made == text,
        Text::PrefixOf(text) => text.starts_with(made),
    }
}

/// Whether the run of a case ends and leaves what it says.
fn ends<R: Threads + Wait + Copy + Send + 'static>(
    rt: &R,
    alloc: Global,
    case: &Case,
) -> Result<bool, NoMemory> {
    let outputs = outputs(alloc, case.before, case.room, case.unwritten)?;
    let left = run(
        rt,
        alloc,
        case.words,
        case.input,
        case.pieces,
        case.unread,
        outputs,
    )?;
    Ok(
        words_of(&left.ended) == case.ended
            && left.ended.status() == case.status
            && is_as(bytes_of(&left.outputs, &Target::Stdout), case.out)
            && is_as(bytes_of(&left.outputs, &Target::Stderr), case.message),
    )
}

/// The name of the first case whose run ends otherwise.
fn first_wrong_case<R: Threads + Wait + Copy + Send + 'static>(
    rt: &R,
    alloc: Global,
) -> Result<Option<&'static str>, NoMemory> {
    for case in CASES.iter() {
        if !ends(rt, alloc, case)? {
            return Ok(Some(case.name));
        }
    }
    Ok(None)
}

#[test]
fn runs_end_as_the_cases_say(rt: HostRuntime) -> Result<(), NoMemory> {
    assert_eq!(rt; first_wrong_case(&rt, rt.alloc())?, None);
    Ok(())
}
