//! The run of a plan from turn to turn.
ghost use Rattle.std.specs.Prelude.{◌≡◌, [], List, Option, IfOk, length};
ghost use Rattle.mlr_event.specs.declared.event.Event.{Event as SpecEvent};
ghost use Rattle.mlr_event.specs.declared.names.InputName.{InputName};
ghost use Rattle.mlr_event.specs.declared.names.Target.TheVariants.{Stdout};
ghost use Rattle.mlr_world.specs.Counts.{Counted, Rose};
ghost use Rattle.mlr_world.specs.Taken.{Take};
ghost use Rattle.outlet.specs.Represents.{CountedIf};
ghost use Rattle.read_files.specs.Takes.{After};
ghost use Rattle.serial_core.specs.Answer.{IsOfNoInput, has_failed, lacks_memory};
ghost use Rattle.serial_core.specs.Command.{Command};
ghost use Rattle.serial_core.specs.Run.{HoldsFew, Run};
ghost use Rattle.serial_core.specs.Represents.{InputCause, Ran, TurnCounts, turn_failed, turn_lacks};
ghost use Rattle.chain_core.specs.Parts.{Runs};
ghost use Rattle.chain_core.specs.Meanings.{IsCommandOf};
ghost use Rattle.plan_verbs.specs.Plans.{IsSound};
ghost use Rattle.serial_core.specs.Meaning.{meaning_of};
ghost use Rattle.plan_verbs.specs.Verbs.{WasGiven, meaning_in};

use crate::plan_outlet::Outlet;
use crate::reader::Reader;
use mlr_event::Events;
use mlr_spec::NoMemory;
use mlr_world::{Inputs, Outputs};
use plan_verbs::{Chain, Lefts, Plan, Verb};
use serial_core::{Ended, SerialTurn};
use std::alloc::Global;

/// A run of a plan whose left files were read, which proceeds from turn to turn. It represents what was taken of the main inputs.
pub struct Serial {
    serial: serial_core::Serial<Verb>,
}

// Written by hand, so that the crates above call it instead of dropping the fields themselves.
impl Drop for Serial {
    fn drop(self) {
        let Serial { serial } = self;
        drop(serial);
    }
}

impl Serial {
    /// A run that has read no main input and written nothing, with what the left files of the plan hold. It allocates for the
    /// reader, the verbs and the outlet.
    pub fn new(alloc: Global, plan: &Plan, lefts: Lefts) -> Result<Self, NoMemory>
        requires sound { IsSound plan.now }
        requires lefts { length lefts ≡ length plan.now.verbs }
        ensures { IfOk result (λ made. (command : Command) → IsCommandOf plan.now lefts command
            → Runs command [] [] [] made) }
    {
        let reader = Reader::new(alloc, plan)?;
        let outlet = Outlet::new(alloc, plan)?;
        let mut chain = Chain::new(alloc, plan, lefts)?;
        let mut made = Events::new(alloc);
        chain.begin(&mut made)?;
        Ok(Serial {
            serial: serial_core::Serial::new(
                reader.into_inner(),
                chain.into_stages(),
                made,
                outlet.into_inner(),
            ),
        })
    }

    /// Makes at most one read, of fewer than 65,536 bytes, and writes all text that is fixed then. It is called while every
    /// turn before returned Went.
    pub fn turn<I: Inputs, O: Outputs>(&mut self, inputs: &mut I, outputs: &mut O) -> SerialTurn
        requires { (command : Command) × (before : Option (List Take)) × (given : List Take)
            × (read : List SpecEvent) × (shown : List SpecEvent)
            × Runs command given read shown self.old
            × After before given (I.contents inputs.old) (I.taken inputs.old)
            (I.open_entry inputs.old) }
        ensures ran { (command : Command) (before : Option (List Take)) (given : List Take)
            (read shown : List SpecEvent)
            → Runs command given read shown self.old
            → After before given (I.contents inputs.old) (I.taken inputs.old)
            (I.open_entry inputs.old)
            → Ran result meaning_in WasGiven command before given
            read shown self.new.serial (I.contents inputs.old) (I.taken inputs.new)
            (I.open_entry inputs.new) (O.held outputs.old) (O.held outputs.new) }
        ensures contents { I.contents inputs.new ≡ I.contents inputs.old }
        ensures cause { TurnCounts result (I.faults inputs.old) (I.faults inputs.new) }
        ensures counts { Counted (turn_failed result) (O.faults outputs.old) (O.faults outputs.new)
            Stdout }
        ensures shortages { CountedIf (turn_lacks result) (O.shortages outputs.old)
            (O.shortages outputs.new) }
    {
        self.serial.turn(inputs, outputs)
    }

    /// Takes turns until the run is over.
    pub fn run<I: Inputs, O: Outputs>(&mut self, inputs: &mut I, outputs: &mut O) -> Ended
        requires { (command : Command) × Runs command [] [] [] self.old }
        ensures run { (command : Command) → Runs command [] [] [] self.old
            → Run result (meaning_of command) (I.contents inputs.old) (I.taken inputs.old)
            (I.taken inputs.new) (I.open_entry inputs.new) (O.held outputs.old)
            (O.held outputs.new) }
        ensures contents { I.contents inputs.new ≡ I.contents inputs.old }
        ensures cause { InputCause result (I.faults inputs.old) (I.faults inputs.new) }
        ensures counts { Counted (has_failed result) (O.faults outputs.old) (O.faults outputs.new)
            Stdout }
        ensures shortages { CountedIf (lacks_memory result) (O.shortages outputs.old)
            (O.shortages outputs.new) }
        // Where no input fails, and all hold fewer than 2^60 bytes, the outcome is neither Read nor TooLong.
        ensures completes { (command : Command) → Runs command [] [] [] self.old
            → HoldsFew (meaning_of command) (I.contents inputs.old) (I.taken inputs.old)
            → ((name : InputName) → ¬ Rose (I.faults inputs.old name) (I.faults inputs.new name))
            → IsOfNoInput result }
    {
        self.serial.run(inputs, outputs)
    }
}
