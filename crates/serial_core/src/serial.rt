//! A run from turn to turn.
ghost use Rattle.std.specs.Prelude.{◌≡◌, ◌++◌, List, [], Option, None, true};
ghost use Rattle.mlr_event.specs.declared.event.Event.{Event as SpecEvent};
ghost use Rattle.mlr_event.specs.declared.names.InputName.{InputName};
ghost use Rattle.mlr_event.specs.declared.names.Target.TheVariants.{Stdout};
ghost use Rattle.mlr_world.specs.Counts.{Counted, Rose};
ghost use Rattle.mlr_world.specs.Taken.{Take};
ghost use Rattle.read_files.specs.Takes.{After};
ghost use Rattle.serial_core.specs.Command.{Command};
ghost use Rattle.mlr_event.specs.Verb.{is_list};
ghost use Rattle.writers.specs.declared.options.WriteOpts.{WriteOpts as Options};
ghost use Rattle.outlet.specs.Represents.{CountedIf, Represents};
ghost use Rattle.verb_chain.specs.Chain.{chain};
ghost use Rattle.verb_chain.specs.Represents.{Represents as Chained, verbs_in};
ghost use Rattle.serial_core.specs.Reading.{ReaderRepresents};
ghost use Rattle.serial_core.specs.Answer.{IsOfNoInput, has_failed, lacks_memory};
ghost use Rattle.serial_core.specs.Meaning.{meaning_of};
ghost use Rattle.serial_core.specs.Run.{HoldsFew, Run};
ghost use Rattle.serial_core.specs.Represents.{Begins, CanPass, InputCause, Passed, Ran, SerialRepresents, Settled, TurnCounts, Wrote, following, turn_failed, turn_lacks, write_failed, write_lacks};

use crate::answer::Ended;
use crate::reader::Reader;
use mlr_event::{Events, Step};
use mlr_world::{Inputs, Outputs};
use outlet::{Let, Outlet, outlet_laws};
use read_files::{ReadTurn, source_laws};
use verb_chain::{Chain, chain_laws};

/// The result of a turn of a run.
#[derive(Debug, PartialEq, Eq, Drop)]
pub enum SerialTurn {
    /// The run continues.
    Went,
    /// The run is over.
    Over(Ended),
}

/// A run that proceeds from turn to turn. It represents what was taken of the inputs.
pub struct Serial<S> {
    reader: Reader,
    stages: Chain<S>,
    outlet: Outlet,
    /// What the verbs have made, and what of it isn't written.
    events: Events,
}

// Written by hand, so that the crates above call it instead of dropping the fields themselves.
impl<S: Drop> Drop for Serial<S> {
    fn drop(self) {
        let Serial {
            reader,
            stages,
            outlet,
            events,
        } = self;
        drop(reader);
        drop(stages);
        drop(outlet);
        drop(events);
    }
}

impl<S: Step + Drop> Serial<S> {
    /// A run that begins: what the verbs have made of nothing is in `made`, and nothing was read or written. It takes no
    /// memory.
    pub fn new(reader: Reader, stages: Chain<S>, made: Events, outlet: Outlet) -> Self
        ensures { (command : Command) → ReaderRepresents command.origin [] [] reader
            → verbs_in S.verb stages ≡ command.verbs → Chained S.verb S.represents [] stages
            → made ≡ chain command.verbs [] → Represents command.write [] outlet
            → Begins S.verb S.represents command result }
    {
        Serial {
            reader,
            stages,
            outlet,
            events: made,
        }
    }

    /// Makes at most one read, of fewer than 65,536 bytes, and writes all text that is fixed then.
    pub fn turn<I: Inputs, O: Outputs>(&mut self, inputs: &mut I, outputs: &mut O) -> SerialTurn
        requires { (command : Command) × (before : Option (List Take)) × (given : List Take)
            × (read : List SpecEvent) × (shown : List SpecEvent)
            × SerialRepresents S.verb S.represents command given read shown self.old
            × After before given (I.contents inputs.old) (I.taken inputs.old)
            (I.open_entry inputs.old) }
        ensures ran { (command : Command) (before : Option (List Take)) (given : List Take)
            (read shown : List SpecEvent)
            → SerialRepresents S.verb S.represents command given read shown self.old
            → After before given (I.contents inputs.old) (I.taken inputs.old)
            (I.open_entry inputs.old)
            → Ran result S.verb S.represents command before given read shown self.new
            (I.contents inputs.old) (I.taken inputs.new) (I.open_entry inputs.new)
            (O.held outputs.old) (O.held outputs.new) }
        ensures contents { I.contents inputs.new ≡ I.contents inputs.old }
        ensures cause { TurnCounts result (I.faults inputs.old) (I.faults inputs.new) }
        ensures counts { Counted (turn_failed result) (O.faults outputs.old) (O.faults outputs.new)
            Stdout }
        ensures shortages { CountedIf (turn_lacks result) (O.shortages outputs.old)
            (O.shortages outputs.new) }
    {
        chain_laws();
        outlet_laws();
        source_laws();
        match self.write(outputs) {
            Some(ended) => SerialTurn::Over(ended),
            None => self.read(inputs, outputs),
        }
    }

    /// Takes turns until the run is over.
    pub fn run<I: Inputs, O: Outputs>(&mut self, inputs: &mut I, outputs: &mut O) -> Ended
        requires { (command : Command) × Begins S.verb S.represents command self.old }
        ensures run { (command : Command) → Begins S.verb S.represents command self.old
            → Run result (meaning_of command) (I.contents inputs.old) (I.taken inputs.old)
            (I.taken inputs.new) (I.open_entry inputs.new) (O.held outputs.old)
            (O.held outputs.new) }
        ensures contents { I.contents inputs.new ≡ I.contents inputs.old }
        ensures cause { InputCause result (I.faults inputs.old) (I.faults inputs.new) }
        ensures counts { Counted (has_failed result) (O.faults outputs.old) (O.faults outputs.new)
            Stdout }
        ensures shortages { CountedIf (lacks_memory result) (O.shortages outputs.old)
            (O.shortages outputs.new) }
        // Where no input fails, and all hold fewer than 2^60 bytes, the outcome is of no input.
        ensures completes { (command : Command) → Begins S.verb S.represents command self.old
            → HoldsFew (meaning_of command) (I.contents inputs.old) (I.taken inputs.old)
            → ((name : InputName) → ¬ Rose (I.faults inputs.old name) (I.faults inputs.new name))
            → IsOfNoInput result }
    {
        chain_laws();
        outlet_laws();
        source_laws();
        loop {
            match self.turn(inputs, outputs) {
                SerialTurn::Went => {}
                SerialTurn::Over(ended) => return ended,
            }
        }
    }

    /// Makes a read, and writes the text that it fixes. All events of earlier reads have been written.
    fn read<I: Inputs, O: Outputs>(&mut self, inputs: &mut I, outputs: &mut O) -> SerialTurn
        requires { (command : Command) × (before : Option (List Take)) × (given : List Take)
            × (read : List SpecEvent) × Settled S.verb S.represents command given read self.old
            × After before given (I.contents inputs.old) (I.taken inputs.old)
            (I.open_entry inputs.old) }
        ensures ran { (command : Command) (before : Option (List Take)) (given : List Take)
            (read : List SpecEvent)
            → Settled S.verb S.represents command given read self.old
            → After before given (I.contents inputs.old) (I.taken inputs.old)
            (I.open_entry inputs.old)
            → Ran result S.verb S.represents command before given read (chain command.verbs read)
            self.new (I.contents inputs.old) (I.taken inputs.new) (I.open_entry inputs.new)
            (O.held outputs.old) (O.held outputs.new) }
        ensures contents { I.contents inputs.new ≡ I.contents inputs.old }
        ensures cause { TurnCounts result (I.faults inputs.old) (I.faults inputs.new) }
        ensures counts { Counted (turn_failed result) (O.faults outputs.old) (O.faults outputs.new)
            Stdout }
        ensures shortages { CountedIf (turn_lacks result) (O.shortages outputs.old)
            (O.shortages outputs.new) }
    {
        chain_laws();
        outlet_laws();
        match self.reader.turn(inputs, &mut self.events) {
            ReadTurn::Failed(name) => SerialTurn::Over(Ended::Read(name)),
            ReadTurn::NoMemory => SerialTurn::Over(Ended::NoMemory),
            read => match self.pass(outputs) {
                Some(ended) => SerialTurn::Over(ended),
                None => following(read),
            },
        }
    }

    /// Takes what was read through the verbs, writes what they make of it, and says how the run ended, if it did.
    fn pass<O: Outputs>(&mut self, outputs: &mut O) -> Option<Ended>
        requires { (opts : Options) × (read : List SpecEvent)
            × CanPass S.verb S.represents opts read self.old }
        ensures passed { (opts : Options) (read : List SpecEvent)
            → CanPass S.verb S.represents opts read self.old
            → Passed result S.verb S.represents opts (verbs_in S.verb self.old.stages) read
            self.old.events self.new (O.held outputs.old) (O.held outputs.new) }
        ensures reader { self.new.reader ≡ self.old.reader }
        ensures counts { Counted (write_failed result) (O.faults outputs.old) (O.faults outputs.new)
            Stdout }
        ensures shortages { CountedIf (write_lacks result) (O.shortages outputs.old)
            (O.shortages outputs.new) }
    {
        chain_laws();
        outlet_laws();
        match self.stages.take_all(&mut self.events) {
            Ok(()) => self.write(outputs),
            Err(_) => Some(Ended::NoMemory),
        }
    }

    /// Writes what the pending events become, and says how the run ended, if it did.
    fn write<O: Outputs>(&mut self, outputs: &mut O) -> Option<Ended>
        requires { (opts : Options) × (shown : List SpecEvent)
            × Represents opts shown self.old.outlet × (is_list (shown ++ self.old.events) ≡ true) }
        ensures wrote { (opts : Options) (shown : List SpecEvent)
            → Represents opts shown self.old.outlet → is_list (shown ++ self.old.events) ≡ true
            → Wrote result opts shown self.old.events (O.held outputs.old) (O.held outputs.new) }
        ensures represents { (opts : Options) (shown : List SpecEvent)
            → Represents opts shown self.old.outlet → is_list (shown ++ self.old.events) ≡ true
            → result ≡ None → Represents opts (shown ++ self.old.events) self.new.outlet }
        ensures emptied { result ≡ None → self.new.events ≡ [] }
        ensures reader { self.new.reader ≡ self.old.reader }
        ensures stages { self.new.stages ≡ self.old.stages }
        ensures counts { Counted (write_failed result) (O.faults outputs.old) (O.faults outputs.new)
            Stdout }
        ensures shortages { CountedIf (write_lacks result) (O.shortages outputs.old)
            (O.shortages outputs.new) }
    {
        match self.outlet.take_all(&mut self.events, outputs) {
            Let::Went => None,
            Let::Over(None) => Some(Ended::Done),
            Let::Over(Some(fault)) => Some(Ended::Data(fault)),
            Let::Failed(target) => Some(Ended::Written(target)),
            Let::NoMemory => Some(Ended::NoMemory),
        }
    }
}

/// The result after a read, where what was written has no end and no fault.
fn following(read: ReadTurn) -> SerialTurn
    ensures { result ≡ following read }
{
    match read {
        ReadTurn::Went => SerialTurn::Went,
        ReadTurn::Ended => SerialTurn::Over(Ended::Done),
        ReadTurn::Failed(name) => SerialTurn::Over(Ended::Read(name)),
        ReadTurn::TooLong => SerialTurn::Over(Ended::TooLong),
        ReadTurn::NoMemory => SerialTurn::Over(Ended::NoMemory),
    }
}
