//! Why the words of a verb give no verb.
use mlr_event::Refusal;
use mlr_spec::NoMemory;

/// Why the words of a verb give no verb.
#[derive(Drop)]
pub enum Fault {
    /// A word can't be accepted.
    Refused(Refusal),
    /// Memory ran out.
    NoMemory,
}

impl From<NoMemory> for Fault {
    ghost use Rattle.std.specs.Prelude.{◌≡◌};
    ghost use Rattle.cli_verbs.specs.declared.fault.Fault.TheVariants as fault;

    ghost from_gives = { λ _ made. made ≡ fault.NoMemory };

    fn from(_: NoMemory) -> Fault {
        Fault::NoMemory
    }
}
