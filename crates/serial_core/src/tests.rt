//! Runs over inputs and outputs in memory, with a verb that passes what it gets, or one that the first record closes.
ghost use Rattle.std.specs.Prelude.{◌≡◌, ◌∷◌, [], IfOk};
ghost use Rattle.serial_core.specs.Command.{Origin};
ghost use Rattle.serial_core.specs.Reading.{ReaderRepresents};
ghost use Rattle.serial_core.specs.Represents.{Begins};

use crate::first_record::FirstRecord;
use crate::{Ended, Reader, Serial};
use mlr_event::models::Cat;
use mlr_event::{Events, Format, InputName, ReadOpts, Step, Target};
use mlr_spec::NoMemory;
use mlr_value::Bytes;
use mlr_world::{MemInputs, MemOutputs};
use outlet::Outlet;
use read_files::{FileReader, can_read};
use std::alloc::Global;
use verb_chain::Chain;
use verbs_seq::{SeqSource, SeqSpec};
use writers::WriteOpts;

/// A run from a reader through a verb that gives nothing of its own.
fn run_of<S: Step + Drop>(
    alloc: Global,
    reader: Reader,
    verb: S,
    write: &WriteOpts,
) -> Result<Serial<S>, NoMemory>
    requires represents { S.represents verb [] }
    requires first { (S.verb verb).first ≡ [] }
    ensures { IfOk result (λ made. (origin : Origin) → ReaderRepresents origin [] [] reader
        → Begins S.verb S.represents (record {
          origin = origin;
          verbs = S.verb verb
              ∷ [];
          write = write.now;
        }) made) }
{
    let mut stages = Chain::new(alloc);
    let mut made = Events::new(alloc);
    stages.push(verb, Events::new(alloc), &mut made)?;
    let outlet = Outlet::new(alloc, write)?;
    Ok(Serial::new(reader, stages, made, outlet))
}

/// The names of the inputs.
const NAMES: [&str; 2] = ["f", "g"];

/// The inputs that hold something, in the order of their names.
fn contents_of(alloc: Global, texts: &[&str]) -> Result<Vec<(InputName, Bytes)>, NoMemory> {
    let mut contents = Vec::new(alloc);
    for (name, text) in NAMES.iter().zip(texts.iter()) {
        let name = InputName::File(Bytes::copy_of(alloc, name.as_bytes())?);
        contents.push((name, Bytes::copy_of(alloc, text.as_bytes())?))?;
    }
    Ok(contents)
}

/// What runs: both inputs as CSV files through a verb that passes all, or that passes the first record alone, or numbers.
#[derive(Clone, Copy)]
enum Run {
    Files,
    FirstRecord,
    Numbers,
}

/// A run, and how it ends.
struct Case {
    name: &'static str,
    run: Run,
    /// The texts of the files; a file without a text is missing.
    texts: &'static [&'static str],
    /// The sizes of the pieces in which they come.
    pieces: &'static [usize],
    /// The calls of the inputs that fail.
    unread: &'static [u64],
    /// The calls of the outputs that fail.
    unwritten: &'static [u64],
    format: Format,
    ended: &'static str,
    status: u8,
    /// What standard output holds then; where a call of the outputs fails, it begins so.
    out: &'static str,
}

/// Runs files through a verb that gives nothing of its own.
fn run_files<S: Step + Drop>(
    alloc: Global,
    case: &Case,
    verb: S,
    outputs: &mut MemOutputs,
) -> Result<Ended, NoMemory>
    requires represents { S.represents verb [] }
    requires first { (S.verb verb).first ≡ [] }
{
    let opts = ReadOpts::of(alloc, Format::Csv)?;
    if !can_read(&opts) {
        return Ok(Ended::TooLong);
    }
    let mut names = Vec::new(alloc);
    for name in NAMES {
        names.push(InputName::File(Bytes::copy_of(alloc, name.as_bytes())?))?;
    }
    let reader = Reader::Files(FileReader::new(alloc, opts, names)?);
    let contents = contents_of(alloc, case.texts)?;
    let pieces = Vec::from_slice(alloc, case.pieces)?;
    let failing = Vec::from_slice(alloc, case.unread)?;
    let mut inputs = MemInputs::new(alloc, contents, pieces, failing)?;
    let write = WriteOpts::of(alloc, case.format)?;
    let mut serial = run_of(alloc, reader, verb, &write)?;
    Ok(serial.run(&mut inputs, outputs))
}

/// Runs the numbers from 1 to 3 through one verb, without inputs.
fn run_numbers(alloc: Global, outputs: &mut MemOutputs) -> Result<Ended, NoMemory> {
    let seq = SeqSpec {
        field: Bytes::copy_of(alloc, b"i")?,
        start: 1,
        stop: 3,
        step: 1,
    };
    if !seq.is_sound() {
        return Ok(Ended::TooLong);
    }
    let reader = Reader::Numbers(SeqSource::new(alloc, seq)?);
    let mut inputs = MemInputs::new(alloc, Vec::new(alloc), Vec::new(alloc), Vec::new(alloc))?;
    let write = WriteOpts::of(alloc, Format::Dkvp)?;
    let mut serial = run_of(alloc, reader, Cat::new(), &write)?;
    Ok(serial.run(&mut inputs, outputs))
}

/// Two files, of which the second has another header.
const TWO: [&str; 2] = ["a,b\n1,2\n", "c\n3\n"];

/// Runs that end well, and runs that a fault or a failing call ends.
const CASES: [Case; 9] = [
    Case {
        name: "files are read in their order",
        run: Run::Files,
        texts: &TWO,
        pieces: &[1, 1, 3],
        unread: &[],
        unwritten: &[],
        format: Format::Dkvp,
        ended: "done",
        status: 0,
        out: "a=1,b=2\nc=3\n",
    },
    Case {
        name: "a held block comes with the end",
        run: Run::Files,
        texts: &TWO,
        pieces: &[],
        unread: &[],
        unwritten: &[],
        format: Format::Pprint,
        ended: "done",
        status: 0,
        out: "a b\n1 2\n\nc\n3\n",
    },
    Case {
        name: "a fault ends the run before the missing file is opened",
        run: Run::Files,
        texts: &["a,b\n1,2\n3\n"],
        pieces: &[],
        unread: &[],
        unwritten: &[],
        format: Format::Dkvp,
        ended: "data",
        status: 1,
        out: "a=1,b=2\n",
    },
    Case {
        name: "a read fails",
        run: Run::Files,
        texts: &TWO,
        pieces: &[9],
        unread: &[4],
        unwritten: &[],
        format: Format::Dkvp,
        ended: "read",
        status: 1,
        out: "a=1,b=2\n",
    },
    Case {
        name: "a file is missing",
        run: Run::Files,
        texts: &["a,b\n1,2\n"],
        pieces: &[],
        unread: &[],
        unwritten: &[],
        format: Format::Dkvp,
        ended: "read",
        status: 1,
        out: "a=1,b=2\n",
    },
    Case {
        name: "a missing file that follows a stop is not opened",
        run: Run::FirstRecord,
        texts: &["a,b\n1,2\n3,4\n"],
        pieces: &[],
        unread: &[],
        unwritten: &[],
        format: Format::Dkvp,
        ended: "done",
        status: 0,
        out: "a=1,b=2\n",
    },
    // The first call opens the file, the second reads its first record, and the third would fail.
    Case {
        name: "a read that follows a stop is not made",
        run: Run::FirstRecord,
        texts: &TWO,
        pieces: &[8],
        unread: &[3],
        unwritten: &[],
        format: Format::Dkvp,
        ended: "done",
        status: 0,
        out: "a=1,b=2\n",
    },
    Case {
        name: "a write fails",
        run: Run::Files,
        texts: &TWO,
        pieces: &[9],
        unread: &[],
        unwritten: &[2],
        format: Format::Dkvp,
        ended: "written",
        status: 1,
        out: "a=1,b=2\n",
    },
    Case {
        name: "numbers are written",
        run: Run::Numbers,
        texts: &[],
        pieces: &[],
        unread: &[],
        unwritten: &[],
        format: Format::Dkvp,
        ended: "done",
        status: 0,
        out: "i=1\ni=2\ni=3\n",
    },
];

/// The word for how a run ended.
fn word_of(ended: &Ended) -> &'static str {
    match ended {
        Ended::Done => "done",
        Ended::Data(_) => "data",
        Ended::Read(InputName::File(_)) => "read",
        Ended::Written(Target::Stdout) => "written",
        _ => "other",
    }
}

/// Whether standard output holds what the case wants.
fn holds(outputs: &MemOutputs, case: &Case) -> bool {
    match outputs.bytes_of(&Target::Stdout) {
        Some(bytes) if case.unwritten.is_empty() => bytes == case.out.as_bytes(),
        Some(bytes) => bytes.starts_with(case.out.as_bytes()),
        None => false,
    }
}

/// How the run of a case ends.
fn ended_of(alloc: Global, case: &Case, outputs: &mut MemOutputs) -> Result<Ended, NoMemory> {
    match case.run {
        Run::Files => run_files(alloc, case, Cat::new(), outputs),
        Run::FirstRecord => run_files(alloc, case, FirstRecord::new(), outputs),
        Run::Numbers => run_numbers(alloc, outputs),
    }
}

/// Whether the run of a case ends as it says.
fn ends(alloc: Global, case: &Case) -> Result<bool, NoMemory> {
    let failing = Vec::from_slice(alloc, case.unwritten)?;
    let mut outputs = MemOutputs::new(alloc, Vec::new(alloc), 1000, failing)?;
    let ended = ended_of(alloc, case, &mut outputs)?;
    Ok(word_of(&ended) == case.ended && ended.status() == case.status && holds(&outputs, case))
}

/// The name of the first case whose run ends otherwise.
fn first_wrong(alloc: Global) -> Result<Option<&'static str>, NoMemory> {
    for case in CASES.iter() {
        if !ends(alloc, case)? {
            return Ok(Some(case.name));
        }
    }
    Ok(None)
}

#[test]
fn runs_end_as_the_cases_say(rt: HostRuntime) -> Result<(), NoMemory> {
    assert_eq!(rt; first_wrong(rt.alloc())?, None);
    Ok(())
}
