//! The source of a run: its inputs, or the numbers of `seqgen`.
ghost use Rattle.std.specs.Prelude.{◌≡◌, ℕ, List, Option};
ghost use Rattle.mlr_event.specs.declared.event.Event.{Event as SpecEvent};
ghost use Rattle.mlr_world.specs.Taken.{Take};
ghost use Rattle.read_files.specs.Takes.{After};
ghost use Rattle.read_files.specs.Represents.{TurnCause};
ghost use Rattle.serial_core.specs.Command.{Origin};
ghost use Rattle.verbs_seq.specs.Seq.{IsSoundSeq};
ghost use Rattle.verbs_seq.specs.Represents.{RepresentsAt};
ghost use Rattle.verbs_seq.specs.declared.seq_spec.SeqSpec.{SeqSpec};
ghost use Rattle.serial_core.specs.Reading.{Counts, Read, ReaderRepresents};

use mlr_event::{Event, Events};
use mlr_world::Inputs;
use read_files::{FileReader, ReadTurn, source_laws};
use verbs_seq::SeqSource;

/// So many numbers come in one turn.
const NUMBERS_AT_ONCE: u64 = 500;

/// Where the events of a run come from.
#[derive(Drop)]
pub enum Reader {
    /// From inputs, one after another.
    Files(FileReader),
    /// From the numbers of `seqgen`.
    Numbers(SeqSource),
}

impl Reader {
    /// Makes one read of fewer than 65,536 bytes, or takes the next numbers, and pushes the events that it
    /// fixes.
    pub fn turn<I: Inputs>(&mut self, inputs: &mut I, out: &mut Events) -> ReadTurn
        requires { (origin : Origin) × (before : Option (List Take)) × (given : List Take)
            × (read : List SpecEvent) × ReaderRepresents origin given read self.old
            × After before given (I.contents inputs.old) (I.taken inputs.old)
            (I.open_entry inputs.old) }
        ensures read { (origin : Origin) (before : Option (List Take)) (given : List Take)
            (read : List SpecEvent)
            → ReaderRepresents origin given read self.old
            → After before given (I.contents inputs.old) (I.taken inputs.old)
            (I.open_entry inputs.old)
            → Read result origin before given read self.new (I.contents inputs.old)
            (I.taken inputs.new) (I.open_entry inputs.new) out.old out.new }
        ensures contents { I.contents inputs.new ≡ I.contents inputs.old }
        ensures cause { TurnCause result (I.faults inputs.old) (I.faults inputs.new) }
    {
        source_laws();
        match self {
            Reader::Files(files) => files.turn(inputs, out),
            Reader::Numbers(numbers) => next_numbers(numbers, out),
        }
    }
}

/// Pushes the next numbers, and the end after the last.
fn next_numbers(numbers: &mut SeqSource, out: &mut Events) -> ReadTurn
    requires { (seq : SeqSpec) × (given : ℕ) × IsSoundSeq seq × RepresentsAt seq given numbers.old }
    ensures { (seq : SeqSpec) (given : ℕ) → IsSoundSeq seq → RepresentsAt seq given numbers.old
        → Counts result seq given numbers.new out.old out.new }
{
    match numbers.fill(NUMBERS_AT_ONCE, out) {
        Ok(true) => ReadTurn::Went,
        Ok(false) => match out.push(Event::End(numbers.ctx())) {
            Ok(()) => ReadTurn::Ended,
            Err(_) => ReadTurn::NoMemory,
        },
        Err(_) => ReadTurn::NoMemory,
    }
}
