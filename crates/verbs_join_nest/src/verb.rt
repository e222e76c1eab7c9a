//! A shaping verb as a verb of a chain.
ghost use Rattle.std.specs.Prelude.{◌≡◌, [], IfOk};
ghost use Rattle.verbs_base.specs.Records.{verb_of};
ghost use Rattle.verbs_join_nest.specs.Meaning.{meaning_of};

use crate::running::Running;
use crate::spec::Spec;
use mlr_event::{Event, Events, Step};
use mlr_spec::NoMemory;
use std::alloc::Global;
use verbs_base::{OverEvents, Stateful};

/// A shaping verb in a chain.
pub struct ShapeVerb {
    verb: OverEvents<Running>,
}

// Written by hand, so that the crates above call it instead of dropping the verbs themselves.
impl Drop for ShapeVerb {
    fn drop(self) {
        let ShapeVerb { verb } = self;
        drop(verb);
    }
}

impl ShapeVerb {
    /// The verb with these options and what its left file holds, before the first record. It allocates for the verb's state.
    pub fn new(alloc: Global, spec: Spec, left: Events) -> Result<Self, NoMemory>
        ensures verb { IfOk result (λ made. ⟦<ShapeVerb as Step>⟧.verb made
            ≡ verb_of (meaning_of spec left)) }
        ensures represents { IfOk result (λ made. ⟦<ShapeVerb as Step>⟧.represents made []) }
    {
        Ok(ShapeVerb {
            verb: OverEvents::new(spec.running(alloc, left)?),
        })
    }

    /// The verb with a copy of these options and what its left file holds, before the first record. It allocates for the copy too.
    pub fn of(alloc: Global, spec: &Spec, left: Events) -> Result<Self, NoMemory>
        ensures verb { IfOk result (λ made. ⟦<ShapeVerb as Step>⟧.verb made
            ≡ verb_of (meaning_of spec.now left)) }
        ensures represents { IfOk result (λ made. ⟦<ShapeVerb as Step>⟧.represents made []) }
    {
        match spec.copy(alloc) {
            Ok(copy) => ShapeVerb::new(alloc, copy, left),
            Err(error) => Err(error),
        }
    }
}

impl Step for ShapeVerb {
    ghost use Rattle.mlr_event.specs.Models.{never-both};
    ghost use Rattle.verbs_base.specs.Laws.{verb-closes, verb-orderly, verb-quiet};
    ghost use Rattle.verbs_join_nest.specs.contracts.running.RunningStateful.TheImpl.Laws as running;

    ghost verb = { λ s. ⟦<OverEvents<Running> as Step>⟧.verb s.verb };

    ghost represents = { λ s given. ⟦<OverEvents<Running> as Step>⟧.represents s.verb given };

    ghost broken = { λ s. ⟦<OverEvents<Running> as Step>⟧.broken s.verb };

    ghost whole = { λ s given holds is. never-both s.verb.broken holds.0 is };

    ghost quiet = { λ s. verb-quiet (⟦<Running as Stateful>⟧.meaning s.verb.verb) };

    ghost orderly = { λ s. verb-orderly (⟦<Running as Stateful>⟧.meaning s.verb.verb) };

    ghost closes = { λ s. verb-closes (⟦<Running as Stateful>⟧.meaning s.verb.verb)
        (running.shuts-law s.verb.verb) };

    fn step(&mut self, event: Event, out: &mut Events) -> Result<(), NoMemory> {
        self.verb.step(event, out)
    }

    fn step_all(&mut self, events: &mut Events, out: &mut Events) -> Result<(), NoMemory> {
        self.verb.step_all(events, out)
    }

    fn never_closes(&self) -> bool {
        self.verb.never_closes()
    }

    fn closed(&self) -> bool {
        self.verb.closed()
    }

    fn has_effects(&self) -> bool {
        self.verb.has_effects()
    }

    fn passes_all(&self) -> bool {
        self.verb.passes_all()
    }

    fn is_broken(&self) -> bool {
        self.verb.is_broken()
    }
}
