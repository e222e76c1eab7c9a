//! A streaming verb as a verb of a chain.
ghost use Rattle.std.specs.Prelude.{◌≡◌, [], IfOk};
ghost use Rattle.verbs_base.specs.Records.{verb_of};
ghost use Rattle.verbs_stream.specs.Meaning.{IsSound, meaning_of};

use crate::running::Running;
use crate::spec::Spec;
use mlr_event::{Event, Events, Step};
use mlr_spec::NoMemory;
use std::alloc::Global;
use verbs_base::OverEvents;

/// A streaming verb in a chain.
pub struct StreamVerb {
    verb: OverEvents<Running>,
}

// Written by hand, so that the crates above call it instead of dropping the verbs themselves.
impl Drop for StreamVerb {
    fn drop(self) {
        let StreamVerb { verb } = self;
        drop(verb);
    }
}

impl StreamVerb {
    /// The verb with these options, before the first record. It allocates for the verb's state.
    pub fn new(alloc: Global, spec: Spec) -> Result<Self, NoMemory>
        requires { IsSound spec }
        ensures verb { IfOk result (λ made. ⟦<StreamVerb as Step>⟧.verb made
            ≡ verb_of (meaning_of spec)) }
        ensures represents { IfOk result (λ made. ⟦<StreamVerb as Step>⟧.represents made []) }
    {
        Ok(StreamVerb {
            verb: OverEvents::new(spec.running(alloc)?),
        })
    }

    /// The verb with a copy of these options, before the first record. It allocates for the copy too.
    pub fn of(alloc: Global, spec: &Spec) -> Result<Self, NoMemory>
        requires { IsSound spec.now }
        ensures verb { IfOk result (λ made. ⟦<StreamVerb as Step>⟧.verb made
            ≡ verb_of (meaning_of spec.now)) }
        ensures represents { IfOk result (λ made. ⟦<StreamVerb as Step>⟧.represents made []) }
    {
        match spec.copy(alloc) {
            Ok(copy) => StreamVerb::new(alloc, copy),
            Err(error) => Err(error),
        }
    }
}

impl Step for StreamVerb {
    ghost use Rattle.mlr_event.specs.Models.{never-both};
    ghost use Rattle.verbs_base.specs.Laws.{verb-closes, verb-orderly, verb-quiet};
    ghost use Rattle.verbs_stream.specs.Meaning.{meaning_of};
    ghost use Rattle.verbs_stream.specs.Running.{options_of, stays-shut};

    ghost verb = { λ s. ⟦<OverEvents<Running> as Step>⟧.verb s.verb };

    ghost represents = { λ s given. ⟦<OverEvents<Running> as Step>⟧.represents s.verb given };

    ghost broken = { λ s. ⟦<OverEvents<Running> as Step>⟧.broken s.verb };

    ghost whole = { λ s given holds is. never-both s.verb.broken holds.0 is };

    ghost quiet = { λ s. verb-quiet (meaning_of (options_of s.verb.verb)) };

    ghost orderly = { λ s. verb-orderly (meaning_of (options_of s.verb.verb)) };

    ghost closes = { λ s. verb-closes (meaning_of (options_of s.verb.verb))
        (stays-shut (options_of s.verb.verb)) };

    fn step(&mut self, event: Event, out: &mut Events) -> Result<(), NoMemory> {
        self.verb.step(event, out)
    }

    fn step_all(&mut self, events: &mut Events, out: &mut Events) -> Result<(), NoMemory> {
        self.verb.step_all(events, out)
    }

    fn never_closes(&self) -> bool {
        self.verb.never_closes()
    }

    fn closed(&self) -> bool {
        self.verb.closed()
    }

    fn has_effects(&self) -> bool {
        self.verb.has_effects()
    }

    fn passes_all(&self) -> bool {
        self.verb.passes_all()
    }

    fn is_broken(&self) -> bool {
        self.verb.is_broken()
    }
}
