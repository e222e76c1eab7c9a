//! The reader of all left files of a run.
ghost use Rattle.std.specs.Prelude.{◌≡◌, ◌<◌, List, [], Option, None, false, true};
ghost use Rattle.std.specs.List.{list_all};
ghost use Rattle.mlr_world.specs.Taken.{Take};
ghost use Rattle.read_files.specs.Takes.{After};
ghost use Rattle.read_files.specs.Represents.{can_read};
ghost use Rattle.left_files.specs.declared.left_file.LeftFile.{LeftFile as SpecFile};
ghost use Rattle.left_files.specs.Represents.{ReadAll, Represents, Turned, TurnCause, left, with_open};
ghost use Rattle.left_files.specs.Steps.{Closed, Kept, failed};

use crate::faults::{at_left, fault_of};
use crate::laws::left_laws;
use crate::left_file::LeftFile;
use crate::open_left::OpenLeft;
use mlr_event::{Events, Fault, InputName};
use mlr_spec::NoMemory;
use mlr_world::Inputs;
use read_files::{FileReader, ReadTurn, source_laws};
use std::alloc::Global;
use std::mem::replace;

/// The result of a turn of a reader of left files.
#[derive(Drop)]
pub enum LeftTurn {
    /// It took a byte or the end of a file, and the reading continues.
    Went,
    /// All left files were read whole, without a fault. These are the events of each, in their order, without an end.
    Ended(Vec<Events>),
    /// A left file has this fault.
    Faulted(Fault),
    /// This left file can't be opened or read.
    Failed(InputName),
    /// 2^60 bytes of one left file were taken.
    TooLong,
    /// There was no memory.
    NoMemory,
}

/// Reads left files one after another, each whole. It represents what was taken of them.
pub struct LeftReader {
    alloc: Global,
    /// The files that weren't begun yet, the last one first.
    files: Vec<LeftFile>,
    /// The file that is being read.
    current: Option<OpenLeft>,
    /// The events of each file that was read whole.
    lefts: Vec<Events>,
}

// Written by hand, so that the crates above call it instead of dropping the fields themselves.
impl Drop for LeftReader {
    fn drop(self) {
        let LeftReader {
            alloc: _,
            files,
            current,
            lefts,
        } = self;
        drop(files);
        drop(current);
        drop(lefts);
    }
}

impl LeftReader {
    /// A reader of these files, in their order, of which nothing was taken. It takes no memory.
    pub fn new(alloc: Global, files: Vec<LeftFile>) -> Self
        requires { list_all (λ file. can_read file.read) files.items ≡ true }
        ensures { Represents files.items [] result }
    {
        let mut files = files;
        files.reverse();
        LeftReader {
            alloc,
            files,
            current: None,
            lefts: Vec::new(alloc),
        }
    }

    /// Makes at most one read, of fewer than 65,536 bytes. The next file is opened where none is open.
    pub fn turn<I: Inputs>(&mut self, inputs: &mut I) -> LeftTurn
        requires { (files : List SpecFile) × (before : Option (List Take)) × (given : List Take)
            × Represents files given self.old
            × After before given (I.contents inputs.old) (I.taken inputs.old)
            (I.open_entry inputs.old) }
        ensures turned { (files : List SpecFile) (before : Option (List Take)) (given : List Take)
            → Represents files given self.old
            → After before given (I.contents inputs.old) (I.taken inputs.old)
            (I.open_entry inputs.old)
            → Turned result files before given self.new (I.contents inputs.old)
            (I.taken inputs.new) (I.open_entry inputs.new) }
        ensures contents { I.contents inputs.new ≡ I.contents inputs.old }
        ensures cause { TurnCause result (I.faults inputs.old) (I.faults inputs.new) }
        ensures less { result ≡ LeftTurn.Went → left self.new < left self.old }
    {
        match self.current.take() {
            Some(input) => self.read(input, inputs),
            None => self.read_next(inputs),
        }
    }

    /// Reads all files: makes turns until it is over.
    pub fn read_all<I: Inputs>(&mut self, inputs: &mut I) -> LeftTurn
        requires { (files : List SpecFile) × Represents files [] self.old }
        ensures read { (files : List SpecFile) → Represents files [] self.old
            → ReadAll result files (I.contents inputs.old) (I.taken inputs.old)
            (I.taken inputs.new) (I.open_entry inputs.new) }
        ensures contents { I.contents inputs.new ≡ I.contents inputs.old }
        ensures cause { TurnCause result (I.faults inputs.old) (I.faults inputs.new) }
    {
        source_laws();
        left_laws();
        loop {
            match self.turn(inputs) {
                LeftTurn::Went => {}
                over => return over,
            }
        }
    }

    /// Begins the next file and reads of it; all were read where there is none.
    fn read_next<I: Inputs>(&mut self, inputs: &mut I) -> LeftTurn
        requires none { self.old.current ≡ None }
        requires represents { (files : List SpecFile) × (before : Option (List Take))
            × (given : List Take) × Represents files given self.old
            × After before given (I.contents inputs.old) (I.taken inputs.old)
            (I.open_entry inputs.old) }
        ensures turned { (files : List SpecFile) (before : Option (List Take)) (given : List Take)
            → Represents files given self.old
            → After before given (I.contents inputs.old) (I.taken inputs.old)
            (I.open_entry inputs.old)
            → Turned result files before given self.new (I.contents inputs.old)
            (I.taken inputs.new) (I.open_entry inputs.new) }
        ensures contents { I.contents inputs.new ≡ I.contents inputs.old }
        ensures cause { TurnCause result (I.faults inputs.old) (I.faults inputs.new) }
        ensures less { result ≡ LeftTurn.Went → left self.new < left self.old }
    {
        let Some(file) = self.files.pop() else {
            return LeftTurn::Ended(replace(&mut self.lefts, Vec::new(self.alloc)));
        };
        match OpenLeft::new(self.alloc, file) {
            Ok(input) => self.read(input, inputs),
            Err(NoMemory) => LeftTurn::NoMemory,
        }
    }

    /// Reads once of this file, which was taken out of the reader.
    fn read<I: Inputs>(&mut self, input: OpenLeft, inputs: &mut I) -> LeftTurn
        requires { (files : List SpecFile) × (before : Option (List Take)) × (given : List Take)
            × Represents files given (with_open input self.old)
            × After before given (I.contents inputs.old) (I.taken inputs.old)
            (I.open_entry inputs.old) }
        ensures turned { (files : List SpecFile) (before : Option (List Take)) (given : List Take)
            → Represents files given (with_open input self.old)
            → After before given (I.contents inputs.old) (I.taken inputs.old)
            (I.open_entry inputs.old)
            → Turned result files before given self.new (I.contents inputs.old)
            (I.taken inputs.new) (I.open_entry inputs.new) }
        ensures contents { I.contents inputs.new ≡ I.contents inputs.old }
        ensures cause { TurnCause result (I.faults inputs.old) (I.faults inputs.new) }
        ensures less { result ≡ LeftTurn.Went → left self.new < left (with_open input self.old) }
    {
        source_laws();
        let mut input = input;
        match input.reader.turn(inputs, &mut input.events) {
            ReadTurn::Went => {
                self.current = Some(input);
                LeftTurn::Went
            }
            ReadTurn::Ended => self.close(input),
            ReadTurn::Failed(name) => LeftTurn::Failed(name),
            ReadTurn::TooLong => LeftTurn::TooLong,
            ReadTurn::NoMemory => LeftTurn::NoMemory,
        }
    }

    /// Closes a file whose last event was read: returns its fault, or keeps its events.
    fn close(&mut self, input: OpenLeft) -> LeftTurn
        ensures closed { Closed result input.number input.events self.old self.new }
        ensures no_failure { failed result ≡ false }
    {
        let OpenLeft {
            number,
            reader: _,
            events,
        } = input;
        let mut events = events;
        match fault_of(events.pop_last()) {
            Some(fault) => LeftTurn::Faulted(at_left(number, fault)),
            None => self.keep(events),
        }
    }

    /// Keeps the events of a file that was read whole. All were read where it is the last one.
    fn keep(&mut self, events: Events) -> LeftTurn
        ensures kept { Kept result events self.old self.new }
        ensures no_failure { failed result ≡ false }
    {
        self.current = None;
        if self.lefts.push(events).is_err() {
            return LeftTurn::NoMemory;
        }
        if self.files.is_empty() {
            return LeftTurn::Ended(replace(&mut self.lefts, Vec::new(self.alloc)));
        }
        LeftTurn::Went
    }
}
