//! The run of a plan.
ghost use Rattle.std.specs.Prelude.{◌≡◌, [], IfOk};
ghost use Rattle.mlr_event.specs.declared.names.InputName.{InputName};
ghost use Rattle.mlr_event.specs.declared.names.Target.TheVariants.{Stdout};
ghost use Rattle.mlr_world.specs.Counts.{Counted, Rose};
ghost use Rattle.outlet.specs.Represents.{CountedIf};
ghost use Rattle.serial_core.specs.Answer.{IsOfNoInput, has_failed, lacks_memory};
ghost use Rattle.serial_core.specs.Command.{Command};
ghost use Rattle.serial_core.specs.Meaning.{Meaning, meaning_of};
ghost use Rattle.serial_core.specs.Run.{HoldsFew, Run};
ghost use Rattle.serial_core.specs.Represents.{InputCause};
ghost use Rattle.chain_core.specs.PlanRun.{PlanRun};
ghost use Rattle.chain_core.specs.Meanings.{IsCommandOf, IsMeaningOf};
ghost use Rattle.chain_core.specs.LeftOutcomes.{outcome_of};
ghost use Rattle.chain_core.specs.Parts.{Runs};
ghost use Rattle.plan_verbs.specs.Plans.{IsSound};
ghost use Rattle.verb_specs.specs.Verbs.{lefts_for};

use crate::left_reader::LeftReader;
use crate::serial::Serial;
use left_files::{LeftTurn, left_laws};
use mlr_event::Events;
use mlr_spec::NoMemory;
use mlr_world::{Inputs, Outputs};
use outlet::outlet_laws;
use plan_verbs::{Plan, lefts_for};
use read_files::source_laws;
use serial_core::Ended;
use std::alloc::Global;
use verb_chain::chain_laws;

/// Runs a plan from start to end, and returns how the run ended. It writes no message. Left files are read first, each whole; no
/// main input is opened after a fault in one of them. A read is made only where the result isn't fixed, and all text that is
/// fixed is written before it.
pub fn run_serial<I: Inputs, O: Outputs>(
    alloc: Global,
    plan: &Plan,
    inputs: &mut I,
    outputs: &mut O,
) -> Ended
    requires { IsSound plan.now }
    // What was taken, what the outcome says of it, and what each target is left with; and the same by all that the
    // inputs hold.
    ensures run { (meaning : Meaning) → (is : IsMeaningOf plan.now meaning)
        → PlanRun result meaning is.rest (I.contents inputs.old) (I.taken inputs.old)
        (I.taken inputs.new) (I.open_entry inputs.new) (O.held outputs.old) (O.held outputs.new) }
    ensures contents { I.contents inputs.new ≡ I.contents inputs.old }
    // Read comes only where a call on that input failed, and Written exactly where one on standard output did.
    ensures cause { InputCause result (I.faults inputs.old) (I.faults inputs.new) }
    ensures counts { Counted (has_failed result) (O.faults outputs.old) (O.faults outputs.new)
        Stdout }
    ensures shortages { CountedIf (lacks_memory result) (O.shortages outputs.old)
        (O.shortages outputs.new) }
    // Where no input fails, and all hold few bytes, the outcome is neither Read nor TooLong.
    ensures completes { (meaning : Meaning) → IsMeaningOf plan.now meaning
        → HoldsFew meaning (I.contents inputs.old) (I.taken inputs.old)
        → ((name : InputName) → ¬ Rose (I.faults inputs.old name) (I.faults inputs.new name))
        → IsOfNoInput result }
{
    chain_laws();
    left_laws();
    outlet_laws();
    source_laws();
    let Ok(mut reader) = LeftReader::new(alloc, plan) else {
        return Ended::NoMemory;
    };
    match reader.read_all(inputs) {
        LeftTurn::Ended(held) => run_main(alloc, plan, held, inputs, outputs),
        turn => outcome_of(turn),
    }
}

/// The outcome of a run whose left files weren't all read whole.
fn outcome_of(turn: LeftTurn) -> Ended
    ensures { result ≡ outcome_of turn }
{
    match turn {
        LeftTurn::Faulted(fault) => Ended::Data(fault),
        LeftTurn::Failed(name) => Ended::Read(name),
        LeftTurn::TooLong => Ended::TooLong,
        LeftTurn::Went | LeftTurn::Ended(_) | LeftTurn::NoMemory => Ended::NoMemory,
    }
}

/// Runs a plan whose left files hold this, in their order.
fn run_main<I: Inputs, O: Outputs>(
    alloc: Global,
    plan: &Plan,
    held: Vec<Events>,
    inputs: &mut I,
    outputs: &mut O,
) -> Ended
    requires { IsSound plan.now }
    ensures run { (command : Command)
        → IsCommandOf plan.now (lefts_for plan.now.verbs held.items) command
        → Run result (meaning_of command) (I.contents inputs.old) (I.taken inputs.old)
        (I.taken inputs.new) (I.open_entry inputs.new) (O.held outputs.old) (O.held outputs.new) }
    ensures contents { I.contents inputs.new ≡ I.contents inputs.old }
    ensures cause { InputCause result (I.faults inputs.old) (I.faults inputs.new) }
    ensures counts { Counted (has_failed result) (O.faults outputs.old) (O.faults outputs.new)
        Stdout }
    ensures shortages { CountedIf (lacks_memory result) (O.shortages outputs.old)
        (O.shortages outputs.new) }
    ensures completes { (command : Command)
        → IsCommandOf plan.now (lefts_for plan.now.verbs held.items) command
        → HoldsFew (meaning_of command) (I.contents inputs.old) (I.taken inputs.old)
        → ((name : InputName) → ¬ Rose (I.faults inputs.old name) (I.faults inputs.new name))
        → IsOfNoInput result }
{
    match serial_of(alloc, plan, held) {
        Ok(mut serial) => serial.run(inputs, outputs),
        Err(NoMemory) => Ended::NoMemory,
    }
}

/// The run of a plan whose left files hold this, in their order, before its first turn.
fn serial_of(alloc: Global, plan: &Plan, held: Vec<Events>) -> Result<Serial, NoMemory>
    requires { IsSound plan.now }
    ensures { IfOk result (λ made. (command : Command)
        → IsCommandOf plan.now (lefts_for plan.now.verbs held.items) command
        → Runs command [] [] [] made) }
{
    Serial::new(alloc, plan, lefts_for(alloc, plan, held)?)
}
