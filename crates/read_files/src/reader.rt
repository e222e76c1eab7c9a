//! The reader of all inputs of a run.
ghost use Rattle.std.specs.Prelude.{◌≡◌, ◌+◌, ◌≤◌, ◌^◌, ◌++◌, ◌∷◌, [], List, Option, None, Some, false, true, IfOk, IfSome, IsSome, OnOk, length};
ghost use Rattle.mlr_event.specs.declared.names.InputName.{InputName as SpecName};
ghost use Rattle.mlr_event.specs.declared.options.ReadOpts.{ReadOpts as Options};
ghost use Rattle.mlr_world.specs.Taken.{Take, begun, ended, grown};
ghost use Rattle.read_files.specs.Takes.{After, total, with_last};
ghost use Rattle.read_files.specs.Represents.{Represents, Turned, TurnCause, can_read};
ghost use Rattle.read_files.specs.Steps.{Closes, AppendsEnd, RepresentsNext, Stepped, WentTo, failed};

use crate::byte_reader::ByteReader;
use crate::feeding::{AtEnd, Fed, end_file, feed_piece};
use crate::laws::source_laws;
use crate::open_file::{OpenFile, OpenInput};
use mlr_event::{Ctx, Event, Events, FileRef, Format, InputName, ReadOpts};
use mlr_spec::NoMemory;
use mlr_value::Bytes;
use mlr_world::{Got, Inputs, Opened};
use std::alloc::Global;

/// More inputs than any memory holds.
const MANY: usize = 1 << 60;

/// All inputs together have fewer bytes than this.
const TOO_LONG: u64 = 1 << 60;

/// One read takes at most so many bytes, of which the records are in the processor's nearer caches when they are written. It is less
/// than the 65,536 bytes that a run may take beyond what it needs.
const ONE_READ: u64 = 16_384;

/// The result of a turn of a reader.
#[derive(Debug, PartialEq, Eq, Drop)]
pub enum ReadTurn {
    /// It took a byte or the end of an input, and the reading continues.
    Went,
    /// An end or a fault was pushed.
    Ended,
    /// This input can't be opened or read.
    Failed(InputName),
    /// 2^60 bytes of all inputs were taken.
    TooLong,
    /// There was no memory.
    NoMemory,
}

/// Reads inputs one after another. It represents what was taken of them.
pub struct FileReader {
    alloc: Global,
    opts: ReadOpts,
    /// The inputs that weren't opened yet, the last one first.
    names: Vec<InputName>,
    /// The input that is open.
    current: Option<OpenInput>,
    /// What the last read took.
    piece: Bytes,
    /// The context after the inputs that were read whole.
    at: Ctx,
    /// How many bytes were taken of all inputs.
    taken: u64,
}

// Written by hand, so that the crates above call it instead of dropping the fields themselves.
impl Drop for FileReader {
    fn drop(self) {
        let FileReader {
            alloc: _,
            opts,
            names,
            current,
            piece,
            at: _,
            taken: _,
        } = self;
        drop(opts);
        drop(names);
        drop(current);
        drop(piece);
    }
}

/// Whether a file can be read so.
pub fn can_read(opts: &ReadOpts) -> bool
    ensures { result ≡ can_read opts.now }
{
    match opts.format {
        Format::Csv | Format::Tsv => read_csv::can_read(opts),
        Format::Dkvp | Format::Nidx | Format::Markdown => read_dkvp_nidx::can_read(opts),
        Format::Xtab | Format::Pprint => read_xtab_pprint::can_read(opts),
        Format::Json | Format::Jsonl => read_json_lines::can_read(opts),
    }
}

impl FileReader {
    /// A reader of these inputs, in their order, of which nothing was taken. It finds no memory for more of them than any
    /// memory holds.
    pub fn new(alloc: Global, opts: ReadOpts, names: Vec<InputName>) -> Result<Self, NoMemory>
        requires { can_read opts ≡ true }
        ensures { IfOk result (λ reader. Represents opts names.items [] reader) }
    {
        if names.len() >= MANY {
            return Err(NoMemory);
        }
        let mut names = names;
        names.reverse();
        Ok(FileReader {
            alloc,
            opts,
            names,
            current: None,
            piece: Bytes::new(alloc),
            at: Ctx {
                nr: 0,
                fnr: 0,
                filenum: 0,
            },
            taken: 0,
        })
    }

    /// Takes one piece of fewer than 65,536 bytes or the end of an input, and pushes the events that it
    /// fixes. The next input is opened where none is open.
    pub fn turn<I: Inputs>(&mut self, inputs: &mut I, out: &mut Events) -> ReadTurn
        requires { (opts : Options) × (names : List SpecName) × (before : Option (List Take))
            × (given : List Take) × Represents opts names given self.old
            × After before given (I.contents inputs.old) (I.taken inputs.old)
            (I.open_entry inputs.old) }
        ensures turned { (opts : Options) (names : List SpecName) (before : Option (List Take))
            (given : List Take)
            → Represents opts names given self.old
            → After before given (I.contents inputs.old) (I.taken inputs.old)
            (I.open_entry inputs.old)
            → Turned result opts names before given self.new (I.contents inputs.old)
            (I.taken inputs.new) (I.open_entry inputs.new) out.old out.new }
        ensures contents { I.contents inputs.new ≡ I.contents inputs.old }
        ensures cause { TurnCause result (I.faults inputs.old) (I.faults inputs.new) }
    {
        if self.current.is_some() {
            self.read(inputs, out)
        } else {
            self.read_next(inputs, out)
        }
    }

    /// Opens the next input and reads from it, or pushes the end where there is none.
    fn read_next<I: Inputs>(&mut self, inputs: &mut I, out: &mut Events) -> ReadTurn
        requires none { self.old.current ≡ None }
        requires represents { (opts : Options) × (names : List SpecName)
            × (before : Option (List Take)) × (given : List Take)
            × Represents opts names given self.old
            × After before given (I.contents inputs.old) (I.taken inputs.old)
            (I.open_entry inputs.old) }
        ensures turned { (opts : Options) (names : List SpecName) (before : Option (List Take))
            (given : List Take)
            → Represents opts names given self.old
            → After before given (I.contents inputs.old) (I.taken inputs.old)
            (I.open_entry inputs.old)
            → Turned result opts names before given self.new (I.contents inputs.old)
            (I.taken inputs.new) (I.open_entry inputs.new) out.old out.new }
        ensures contents { I.contents inputs.new ≡ I.contents inputs.old }
        ensures cause { TurnCause result (I.faults inputs.old) (I.faults inputs.new) }
    {
        let Some(name) = self.names.pop() else {
            return put_end(self.at, out);
        };
        match inputs.open(&name) {
            Opened::Ok => match self.begin(name) {
                Ok(()) => self.read(inputs, out),
                Err(NoMemory) => ReadTurn::NoMemory,
            },
            Opened::Failed => ReadTurn::Failed(name),
            Opened::NoMemory => ReadTurn::NoMemory,
        }
    }

    /// Has the next input, whose name was taken out of the names, as the open one, before its first byte.
    fn begin(&mut self, name: InputName) -> Result<(), NoMemory>
        requires { (opts : Options) × (names : List SpecName) × (given : List Take)
            × RepresentsNext opts names given name self.old }
        ensures represents { (opts : Options) (names : List SpecName) (given : List Take)
            → RepresentsNext opts names given name self.old
            → OnOk result (Represents opts names (given ++ begun name ∷ []) self.new) }
        ensures some { OnOk result (IsSome self.new.current) }
    {
        let filenum = self.at.filenum + 1;
        let start = Ctx {
            nr: self.at.nr,
            fnr: 0,
            filenum,
        };
        let reader = OpenFile::begin(self.alloc, &self.opts, FileRef::Main(filenum), start)?;
        self.current = Some(OpenInput { name, reader });
        Ok(())
    }

    /// Reads once of the input that is open.
    fn read<I: Inputs>(&mut self, inputs: &mut I, out: &mut Events) -> ReadTurn
        requires some { IsSome self.old.current }
        requires represents { (opts : Options) × (names : List SpecName)
            × (before : Option (List Take)) × (given : List Take)
            × Represents opts names given self.old
            × After before given (I.contents inputs.old) (I.taken inputs.old)
            (I.open_entry inputs.old) }
        ensures turned { (opts : Options) (names : List SpecName) (before : Option (List Take))
            (given : List Take)
            → Represents opts names given self.old
            → After before given (I.contents inputs.old) (I.taken inputs.old)
            (I.open_entry inputs.old)
            → Turned result opts names before given self.new (I.contents inputs.old)
            (I.taken inputs.new) (I.open_entry inputs.new) out.old out.new }
        ensures contents { I.contents inputs.new ≡ I.contents inputs.old }
        ensures cause { TurnCause result (I.faults inputs.old) (I.faults inputs.new) }
    {
        self.piece.clear();
        let max = ONE_READ.min(TOO_LONG - self.taken);
        match inputs.read(max as usize, &mut self.piece) {
            Got::Some(_) => self.take_piece(out),
            Got::End => self.take_end(out),
            Got::Failed => self.fail(),
            Got::NoMemory => ReadTurn::NoMemory,
        }
    }

    /// Feeds the piece that was read, and pushes the events that it fixes.
    fn take_piece(&mut self, out: &mut Events) -> ReadTurn
        requires some { IsSome self.old.current }
        requires represents { (opts : Options) × (names : List SpecName) × (given : List Take)
            × Represents opts names given self.old
            × (total given + length self.old.piece ≤ 2 ^ 60) }
        ensures stepped { (opts : Options) (names : List SpecName) (given : List Take)
            → Represents opts names given self.old → 1 ≤ length self.old.piece
            → total given + length self.old.piece ≤ 2 ^ 60
            → Stepped result opts names given (with_last (grown self.old.piece) given) self.new
            out.old out.new }
        ensures no_failure { failed result ≡ false }
    {
        source_laws();
        let Some(mut input) = self.current.take() else {
            return ReadTurn::NoMemory;
        };
        self.taken += self.piece.len() as u64;
        let fed = feed_piece(&mut input.reader, self.piece.as_slice(), out);
        self.current = Some(input);
        match fed {
            Fed::On => went_to(self.taken),
            Fed::Faulty => ReadTurn::Ended,
            Fed::NoMemory => ReadTurn::NoMemory,
        }
    }

    /// Ends the reader of the file, and pushes the rest of its events, and the end after the last input.
    fn take_end(&mut self, out: &mut Events) -> ReadTurn
        requires some { IsSome self.old.current }
        requires represents { (opts : Options) × (names : List SpecName) × (given : List Take)
            × Represents opts names given self.old }
        ensures stepped { (opts : Options) (names : List SpecName) (given : List Take)
            → Represents opts names given self.old
            → Stepped result opts names given (with_last ended given) self.new out.old out.new }
        ensures no_failure { failed result ≡ false }
    {
        source_laws();
        let Some(input) = &mut self.current else {
            return ReadTurn::NoMemory;
        };
        match end_file(&mut input.reader, out) {
            AtEnd::On(at) => self.close(at, out),
            AtEnd::Faulty => ReadTurn::Ended,
            AtEnd::NoMemory => ReadTurn::NoMemory,
        }
    }

    /// Closes the open input, after which this is the context, and pushes the end where it is the last one.
    fn close(&mut self, at: Ctx, out: &mut Events) -> ReadTurn
        ensures closes { Closes result at self.old self.new out.old out.new }
        ensures no_failure { failed result ≡ false }
    {
        self.current = None;
        self.at = at;
        if self.names.is_empty() {
            return put_end(at, out);
        }
        ReadTurn::Went
    }

    /// The input that is open can't be read.
    fn fail(&mut self) -> ReadTurn
        requires some { IsSome self.old.current }
        ensures { IfSome self.old.current (λ input. result ≡ ReadTurn.Failed input.name) }
    {
        match self.current.take() {
            Some(input) => ReadTurn::Failed(name_of(input)),
            None => ReadTurn::NoMemory,
        }
    }
}

/// Whether the reading continues where so many bytes were taken.
fn went_to(taken: u64) -> ReadTurn
    ensures { WentTo result taken }
{
    if taken == TOO_LONG {
        return ReadTurn::TooLong;
    }
    ReadTurn::Went
}

/// The name of an input.
fn name_of(input: OpenInput) -> InputName
    ensures { result ≡ input.name }
{
    let OpenInput { name, reader: _ } = input;
    name
}

/// Pushes the end after all inputs.
fn put_end(at: Ctx, out: &mut Events) -> ReadTurn
    ensures appends { AppendsEnd result at out.old out.new }
    ensures no_failure { failed result ≡ false }
{
    match out.push(Event::End(at)) {
        Ok(()) => ReadTurn::Ended,
        Err(NoMemory) => ReadTurn::NoMemory,
    }
}
