//! What the program writes without a run.
ghost use Rattle.std.specs.Prelude.{◌≡◌};
ghost use Rattle.mlr_event.specs.declared.names.Target.TheVariants.{Stdout};
ghost use Rattle.mlr_world.specs.Counts.{Counted};
ghost use Rattle.mlr_world.specs.Outputs.{ChangesAt};
ghost use Rattle.outlet.specs.Represents.{CountedIf};
ghost use Rattle.serial_core.specs.Answer.{has_failed, lacks_memory};
ghost use Rattle.cli_run.specs.Meaning.{IsSaid};
ghost use Rattle.cli_run.specs.Run.{LeavesText};

use chain_core::{Ended, Refusal, Why};
use mlr_event::Target;
use mlr_world::{Done, Outputs};

/// Writes a text to standard output.
pub(crate) fn say<O: Outputs>(text: &[u8], outputs: &mut O) -> Ended
    ensures answers { IsSaid result }
    ensures leaves { ChangesAt Stdout (LeavesText text.now result Stdout) (O.held outputs.old)
        (O.held outputs.new) }
    ensures counts { Counted (has_failed result) (O.faults outputs.old) (O.faults outputs.new)
        Stdout }
    ensures shortages { CountedIf (lacks_memory result) (O.shortages outputs.old)
        (O.shortages outputs.new) }
{
    match outputs.write(&Target::Stdout, text) {
        Done::Ok => Ended::Done,
        Done::Failed => Ended::Written(Target::Stdout),
        Done::NoMemory => Ended::NoMemory,
    }
}

/// A copy of a refusal.
pub(crate) fn copy_of(refusal: &Refusal) -> Refusal
    ensures { result ≡ refusal.now }
{
    Refusal {
        word: refusal.word,
        why: why_of(&refusal.why),
    }
}

fn why_of(why: &Why) -> Why
    ensures { result ≡ why.now }
{
    match why {
        Why::NoVerb => Why::NoVerb,
        Why::UnknownFlag => Why::UnknownFlag,
        Why::UnknownVerb => Why::UnknownVerb,
        Why::MissingArgument => Why::MissingArgument,
        Why::BadNumber => Why::BadNumber,
        Why::BadSeparator => Why::BadSeparator,
        Why::BadPattern => Why::BadPattern,
        Why::PatternSize => Why::PatternSize,
        Why::TooManyVerbs => Why::TooManyVerbs,
        Why::Clash => Why::Clash,
        Why::NotBuilt => Why::NotBuilt,
    }
}
