//! A model verb, for the tests of runs: it gives the first record alone, and is closed after it.
ghost use Rattle.std.specs.Prelude.{◌≡◌, []};
ghost use Rattle.mlr_event.specs.Verb.{is_record};

use mlr_event::{Event, Events, Step};
use mlr_spec::NoMemory;

#[derive(Drop)]
pub(crate) struct FirstRecord {
    met: bool,
    broken: bool,
}

impl FirstRecord {
    /// A verb that was given nothing.
    pub(crate) fn new() -> Self
        ensures represents { ⟦<FirstRecord as Step>⟧.represents result [] }
        ensures first { (⟦<FirstRecord as Step>⟧.verb result).first ≡ [] }
    {
        FirstRecord {
            met: false,
            broken: false,
        }
    }
}

impl Step for FirstRecord {
    ghost use Rattle.std.specs.Prelude.{◌≡◌, true};
    ghost use Rattle.mlr_event.specs.Models.{never-both};
    ghost use Rattle.serial_core.specs.Models.{FirstRepresents, first_record, first-closes, first-orderly, first-quiet};

    ghost verb = { λ s. first_record };

    ghost represents = { λ s given. FirstRepresents s.broken s.met given };

    ghost broken = { λ s. s.broken ≡ true };

    ghost whole = { λ s given holds is. never-both s.broken holds.0 is };

    ghost quiet = { λ s. first-quiet };

    ghost orderly = { λ s. first-orderly };

    ghost closes = { λ s. first-closes };

    fn step(&mut self, event: Event, out: &mut Events) -> Result<(), NoMemory> {
        let is_record = is_record(&event);
        if is_record && self.met {
            return Ok(());
        }
        if let Err(error) = out.push(event) {
            self.broken = true;
            return Err(error);
        }
        self.met = self.met || is_record;
        Ok(())
    }

    fn closed(&self) -> bool {
        self.met
    }

    fn has_effects(&self) -> bool {
        false
    }

    fn passes_all(&self) -> bool {
        false
    }

    fn is_broken(&self) -> bool {
        self.broken
    }
}

fn is_record(event: &Event) -> bool
    ensures { result ≡ is_record event.now }
{
    matches!(event, Event::Rec(_, _))
}
