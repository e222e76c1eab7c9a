//! A chain of verbs, which takes events and gives events.
ghost use Rattle.std.specs.Prelude.{◌≡◌, ◌++◌, ◌∷◌, [], List, true, IfOk, OnOk};
ghost use Rattle.std.specs.List.{list_any};
ghost use Rattle.mlr_event.specs.Adding.{Adds};
ghost use Rattle.mlr_event.specs.declared.event.Event.{Event as SpecEvent};
ghost use Rattle.mlr_event.specs.Verb.{is_list, is_open};
ghost use Rattle.verb_chain.specs.Chain.{chain, stopped};
ghost use Rattle.verb_chain.specs.Represents.{Represents, verbs_in};

use crate::stage::{Stage, begun, pass};
use mlr_event::{Event, Events, Step};
use mlr_spec::NoMemory;
use std::alloc::Global;

/// Verbs of any kind, each of which takes the events that the verb before it gives. A chain represents the
/// list of events that it was given.
pub struct Chain<S> {
    alloc: Global,
    stages: Vec<Stage<S>>,
    /// Whether no verb of the chain has effects.
    quiet: bool,
    /// The events that are passing through the verbs.
    room: Events,
}

// Written by hand, so that the crates above call it instead of dropping the fields themselves.
impl<S: Drop> Drop for Chain<S> {
    fn drop(self) {
        let Chain {
            alloc: _,
            stages,
            quiet: _,
            room,
        } = self;
        drop(stages);
        drop(room);
    }
}

impl<S: Step + Drop> Chain<S> {
    /// A chain without verbs, from which each event comes out unchanged. It doesn't allocate.
    pub fn new(alloc: Global) -> Self
        ensures verbs { verbs_in S.verb result ≡ [] }
        ensures represents { Represents S.verb S.represents [] result }
    {
        Chain {
            alloc,
            stages: Vec::new(alloc),
            quiet: true,
            room: Events::new(alloc),
        }
    }

    /// Adds a verb at the end, before the first event. `first` is what the verb gave when it began. `made` is
    /// the output of the verbs before it so far, and becomes the output of all the verbs.
    pub fn push(&mut self, verb: S, first: Events, made: &mut Events) -> Result<(), NoMemory>
        requires chain { Represents S.verb S.represents [] self.old }
        requires verb { S.represents verb [] }
        requires first { first ≡ (S.verb verb).first }
        requires made { made.old ≡ chain (verbs_in S.verb self.old) [] }
        ensures verbs { OnOk result (verbs_in S.verb self.new
            ≡ verbs_in S.verb self.old ++ S.verb verb ∷ []) }
        ensures represents { OnOk result (Represents S.verb S.represents [] self.new) }
        ensures made { OnOk result (made.new ≡ chain (verbs_in S.verb self.new) []) }
    {
        let effects = verb.has_effects();
        let stage = begun(self.alloc, verb, self.quiet, first, made)?;
        self.stages.push(stage)?;
        self.quiet = self.quiet && !effects;
        Ok(())
    }

    /// Takes an event, and appends the output of the last verb to `out`. No end and no fault may have been
    /// taken before.
    pub fn step(&mut self, event: Event, out: &mut Events) -> Result<(), NoMemory>
        requires { (given : List SpecEvent) × Represents S.verb S.represents given self.old
            × (is_open given ≡ true) }
        ensures verbs { OnOk result (verbs_in S.verb self.new ≡ verbs_in S.verb self.old) }
        ensures represents { OnOk result ((given : List SpecEvent)
            → Represents S.verb S.represents given self.old → is_open given ≡ true
            → Represents S.verb S.represents (given ++ event ∷ []) self.new) }
        ensures adds { OnOk result ((given : List SpecEvent)
            → Represents S.verb S.represents given self.old → is_open given ≡ true
            → Adds out.old out.new (chain (verbs_in S.verb self.old) given)
            (chain (verbs_in S.verb self.old) (given ++ event ∷ []))) }
    {
        self.room.push(event)?;
        pass(&mut self.stages, &mut self.room)?;
        out.append(&mut self.room)?;
        Ok(())
    }

    /// Takes all events of a list, and replaces them by the output of the last verb.
    pub fn take_all(&mut self, events: &mut Events) -> Result<(), NoMemory>
        requires { (given : List SpecEvent) × Represents S.verb S.represents given self.old
            × (is_list (given ++ events.old) ≡ true) }
        ensures verbs { OnOk result (verbs_in S.verb self.new ≡ verbs_in S.verb self.old) }
        ensures represents { OnOk result ((given : List SpecEvent)
            → Represents S.verb S.represents given self.old → is_list (given ++ events.old) ≡ true
            → Represents S.verb S.represents (given ++ events.old) self.new) }
        ensures made { OnOk result ((given : List SpecEvent)
            → Represents S.verb S.represents given self.old → is_list (given ++ events.old) ≡ true
            → chain (verbs_in S.verb self.old) (given ++ events.old)
            ≡ chain (verbs_in S.verb self.old) given ++ events.new) }
    {
        pass(&mut self.stages, events)?;
        Ok(())
    }

    /// Whether a verb is closed, and no verb before it has effects. Then more events give nothing. It doesn't
    /// allocate.
    pub fn stopped(&self) -> bool
        ensures { (given : List SpecEvent) → Represents S.verb S.represents given self.now
            → result ≡ stopped (verbs_in S.verb self.now) given }
    {
        any_shut(&self.stages)
    }
}

/// Whether a verb is closed at a quiet place.
fn any_shut<S: Step + Drop>(stages: &[Stage<S>]) -> bool
    ensures { result ≡ list_any (λ stage. stage.gate.shut) stages.now }
{
    stages.iter().any(|stage| stage.is_shut())
}
