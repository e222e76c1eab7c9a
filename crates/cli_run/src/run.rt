//! The top call: a command line run on inputs and outputs.
ghost use Rattle.std.specs.Prelude.{◌≡◌, ◌≤◌, true, []};
ghost use Rattle.mlr_event.specs.declared.names.InputName.{InputName};
ghost use Rattle.mlr_event.specs.declared.names.Target.{Target};
ghost use Rattle.mlr_event.specs.declared.names.Target.TheVariants.{Stdout};
ghost use Rattle.mlr_world.specs.Counts.{Counted, Rose};
ghost use Rattle.outlet.specs.Represents.{CountedIf};
ghost use Rattle.serial_core.specs.Answer.{has_failed, is_refused, lacks_memory};
ghost use Rattle.serial_core.specs.Represents.{InputCause};
ghost use Rattle.plan_verbs.specs.Plans.{IsSound};
ghost use Rattle.plan_verbs.specs.declared.plan.Plan.{Plan as SpecPlan};
ghost use Rattle.cli_run.specs.Meaning.{inputs_named, styles_named, verbs_named};
ghost use Rattle.cli_run.specs.Run.{OutputCause, Ran, Run};

use crate::message::{Digits, write_message};
use crate::say::{copy_of, say};
use chain_core::{Ended, VerbSpec, run_serial};
use cli_plan::{Planned, plan};
use itoa::Buffer;
use mlr_event::NameList;
use mlr_value::Bytes;
use mlr_world::{Inputs, Outputs};
use std::alloc::Global;
use std::sync::Wait;
use std::thread::Threads;
use writers::WriteOpts;

/// The top call: runs a command line, and writes the message of its outcome to standard error. Returns how
/// the run ended, and the inputs. It is `run_alone`, with what a run in several threads will need.
pub fn run_mlr<
    R: Threads + Wait + Copy + Send + 'static,
    I: Inputs + Drop + Send + 'static,
    O: Outputs,
>(
    rt: &R,
    alloc: Global,
    words: &[Bytes],
    env: &[(Bytes, Bytes)],
    inputs: I,
    outputs: &mut O,
) -> (Ended, I)
    // Where words are refused nothing is read.
    ensures untouched { is_refused result.0 ≡ true → result.1 ≡ inputs }

    // What the words come to, what is run for them, what was taken, what the outcome says of it, and what each output
    // contains; and the outcome and standard output by all that the inputs hold. Where no input fails, each left file holds
    // fewer than 2^60 bytes, and the main inputs do together, the outcome is neither Read nor TooLong.
    ensures run { Run words.now result.0
        ((name : InputName) → ¬ Rose (I.faults inputs name) (I.faults result.1 name))
        (I.contents inputs) (I.taken inputs) (I.taken result.1)
        (O.held outputs.old) (O.held outputs.new) (O.faults outputs.old) (O.faults outputs.new)
        (O.shortages outputs.old) (O.shortages outputs.new) }
    ensures contents { I.contents result.1 ≡ I.contents inputs }

    // Read comes only where a call on that input failed, and Written only where one on standard output did.
    ensures input_cause { InputCause result.0 (I.faults inputs) (I.faults result.1) }
    ensures output_counts { (target : Target)
        → O.faults outputs.old target ≤ O.faults outputs.new target }
    ensures output_cause { OutputCause result.0 (O.faults outputs.old) (O.faults outputs.new) }
{
    let _ = rt;
    run_alone(alloc, words, env, inputs, outputs)
}

/// The same without other threads. It always returns.
pub fn run_alone<I: Inputs + Drop, O: Outputs>(
    alloc: Global,
    words: &[Bytes],
    env: &[(Bytes, Bytes)],
    inputs: I,
    outputs: &mut O,
) -> (Ended, I)
    // Where words are refused nothing is read.
    ensures untouched { is_refused result.0 ≡ true → result.1 ≡ inputs }

    // What the words come to, what is run for them, what was taken, what the outcome says of it, and what each output
    // contains; and the outcome and standard output by all that the inputs hold. Where no input fails, each left file holds
    // fewer than 2^60 bytes, and the main inputs do together, the outcome is neither Read nor TooLong.
    ensures run { Run words.now result.0
        ((name : InputName) → ¬ Rose (I.faults inputs name) (I.faults result.1 name))
        (I.contents inputs) (I.taken inputs) (I.taken result.1)
        (O.held outputs.old) (O.held outputs.new) (O.faults outputs.old) (O.faults outputs.new)
        (O.shortages outputs.old) (O.shortages outputs.new) }
    ensures contents { I.contents result.1 ≡ I.contents inputs }

    // Read comes only where a call on that input failed, and Written only where one on standard output did.
    ensures input_cause { InputCause result.0 (I.faults inputs) (I.faults result.1) }
    ensures output_counts { (target : Target)
        → O.faults outputs.old target ≤ O.faults outputs.new target }
    ensures output_cause { OutputCause result.0 (O.faults outputs.old) (O.faults outputs.new) }
{
    let mut digits = Digits {
        first: Buffer::new(),
        second: Buffer::new(),
        third: Buffer::new(),
    };
    let mut inputs = inputs;
    let planned = plan(alloc, words, env);
    let ended = run_planned(alloc, &planned, &mut inputs, outputs);
    let none = NameList::new(alloc);
    let names = inputs_named(&planned, &none);
    let verbs = verbs_named(&planned);
    let styles = styles_named(&planned);
    let _ = write_message(words, names, verbs, styles, &ended, &mut digits, outputs);
    (ended, inputs)
}

/// The inputs that a message may name, where `none` is an empty list.
fn inputs_named<'a>(planned: &'a Planned, none: &'a NameList) -> &'a NameList
    requires { none.now ≡ [] }
    ensures { result.now ≡ inputs_named planned.now }
{
    match planned {
        Planned::Ok(plan) => &plan.inputs,
        _ => none,
    }
}

/// The verbs whose left files a message may name.
fn verbs_named(planned: &Planned) -> &[VerbSpec]
    ensures { result.now ≡ verbs_named planned.now }
{
    match planned {
        Planned::Ok(plan) => plan.verbs.as_slice(),
        _ => &[],
    }
}

/// The styles whose formats a message may name.
fn styles_named(planned: &Planned) -> &[WriteOpts]
    ensures { result.now ≡ styles_named planned.now }
{
    match planned {
        Planned::Ok(plan) => plan.styles.as_slice(),
        _ => &[],
    }
}

/// Runs what words came to, without its message.
fn run_planned<I: Inputs, O: Outputs>(
    alloc: Global,
    planned: &Planned,
    inputs: &mut I,
    outputs: &mut O,
) -> Ended
    requires { (plan : SpecPlan) → planned.now ≡ Planned.Ok plan → IsSound plan }
    ensures untouched { is_refused result ≡ true → inputs.new ≡ inputs.old }
    ensures run { Ran planned.now result
        ((name : InputName) → ¬ Rose (I.faults inputs.old name) (I.faults inputs.new name))
        (I.contents inputs.old) (I.taken inputs.old) (I.taken inputs.new) (O.held outputs.old)
        (O.held outputs.new) }
    ensures contents { I.contents inputs.new ≡ I.contents inputs.old }
    ensures input_cause { InputCause result (I.faults inputs.old) (I.faults inputs.new) }
    ensures output_counts { Counted (has_failed result) (O.faults outputs.old)
        (O.faults outputs.new) Stdout }
    ensures shortages { CountedIf (lacks_memory result) (O.shortages outputs.old)
        (O.shortages outputs.new) }
{
    match planned {
        Planned::Ok(plan) => run_serial(alloc, plan, inputs, outputs),
        Planned::Say(text) => say(text.as_slice(), outputs),
        Planned::Refused(refusal) => Ended::Refused(copy_of(refusal)),
        Planned::NoMemory => Ended::NoMemory,
    }
}
