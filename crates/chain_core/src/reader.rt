//! The reader of a plan.
ghost use Rattle.std.specs.Prelude.{◌≡◌, [], List, Option, IfOk, true};
ghost use Rattle.mlr_event.specs.declared.event.Event.{Event as SpecEvent};
ghost use Rattle.mlr_world.specs.Taken.{Take};
ghost use Rattle.read_files.specs.Takes.{After};
ghost use Rattle.read_files.specs.Represents.{TurnCause, can_read};
ghost use Rattle.serial_core.specs.Command.{files, numbers};
ghost use Rattle.serial_core.specs.Reading.{Read, ReaderRepresents};
ghost use Rattle.verbs_seq.specs.Seq.{IsSoundSeq};
ghost use Rattle.plan_verbs.specs.declared.plan.Plan.{Plan as SpecPlan};
ghost use Rattle.chain_core.specs.Parts.{Reads};
ghost use Rattle.plan_verbs.specs.Plans.{IsSound};
ghost use Rattle.chain_core.specs.Origins.{inputs_of, origin_of};

use mlr_event::{Events, NameList};
use mlr_spec::NoMemory;
use mlr_world::Inputs;
use plan_verbs::Plan;
use read_files::{FileReader, ReadTurn};
use std::alloc::Global;
use verb_specs::VerbSpec;
use verbs_seq::{SeqSource, SeqSpec};

/// Reads what a plan reads: the numbers of its source, or else its main inputs in their order.
pub struct Reader {
    reader: serial_core::Reader,
}

// Written by hand, so that the crates above call it instead of dropping the fields themselves.
impl Drop for Reader {
    fn drop(self) {
        let Reader { reader } = self;
        drop(reader);
    }
}

impl Reader {
    /// A reader that has taken nothing. It allocates for copies of the names and of the options.
    pub fn new(alloc: Global, plan: &Plan) -> Result<Self, NoMemory>
        requires { IsSound plan.now }
        ensures { IfOk result (Reads plan.now [] []) }
    {
        let reader = match plan.verbs.at(0) {
            Some(VerbSpec::Seq(seq)) => numbers_of(alloc, seq)?,
            _ => files_of(alloc, plan)?,
        };
        Ok(Reader { reader })
    }

    /// Makes one read of fewer than 65,536 bytes, or takes at most 500 numbers, and pushes the events that it fixes. It is
    /// called while every turn before returned Went.
    pub fn turn<I: Inputs>(&mut self, inputs: &mut I, out: &mut Events) -> ReadTurn
        requires { (plan : SpecPlan) × (before : Option (List Take)) × (given : List Take)
            × (read : List SpecEvent) × Reads plan given read self.old
            × After before given (I.contents inputs.old) (I.taken inputs.old)
            (I.open_entry inputs.old) }
        ensures read { (plan : SpecPlan) (before : Option (List Take)) (given : List Take)
            (read : List SpecEvent)
            → Reads plan given read self.old
            → After before given (I.contents inputs.old) (I.taken inputs.old)
            (I.open_entry inputs.old)
            → Read result (origin_of plan) before given read self.new.reader
            (I.contents inputs.old) (I.taken inputs.new) (I.open_entry inputs.new)
            out.old out.new }
        ensures contents { I.contents inputs.new ≡ I.contents inputs.old }
        ensures cause { TurnCause result (I.faults inputs.old) (I.faults inputs.new) }
    {
        self.reader.turn(inputs, out)
    }

    /// The reader itself.
    pub(crate) fn into_inner(self) -> serial_core::Reader
        ensures { result ≡ self.reader }
    {
        let Reader { reader } = self;
        reader
    }
}

fn numbers_of(alloc: Global, seq: &SeqSpec) -> Result<serial_core::Reader, NoMemory>
    requires { IsSoundSeq seq.now }
    ensures { IfOk result (ReaderRepresents (numbers seq.now) [] []) }
{
    let seq = seq.copy(alloc)?;
    Ok(serial_core::Reader::Numbers(SeqSource::new(alloc, seq)?))
}

fn files_of(alloc: Global, plan: &Plan) -> Result<serial_core::Reader, NoMemory>
    requires { can_read plan.now.read ≡ true }
    ensures { IfOk result (ReaderRepresents (files plan.now.read (inputs_of plan.now)) [] []) }
{
    let names = names_of(alloc, plan)?.into_vec();
    let opts = plan.read.copy(alloc)?;
    Ok(serial_core::Reader::Files(FileReader::new(alloc, opts, names)?))
}

/// The main inputs that are read.
fn names_of(alloc: Global, plan: &Plan) -> Result<NameList, NoMemory>
    ensures { IfOk result (λ names. names ≡ inputs_of plan.now) }
{
    if plan.no_input {
        return Ok(NameList::new(alloc));
    }
    plan.inputs.copy()
}
