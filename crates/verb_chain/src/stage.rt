//! A verb of a chain, with a list for its output.
ghost use Rattle.std.specs.Prelude.{◌≡◌, ◌++◌, [], Bool, List, true, IfOk, OnOk};
ghost use Rattle.mlr_event.specs.Adding.{Adds};
ghost use Rattle.mlr_event.specs.declared.event.Event.{Event as SpecEvent};
ghost use Rattle.mlr_event.specs.Verb.{is_list};
ghost use Rattle.verb_chain.specs.Chain.{chain_from};
ghost use Rattle.verb_chain.specs.Represents.{GateRepresents, IsSameGate, StagesRepresent, made_at, verbs_of};

use crate::gate::Gate;
use mlr_event::{Events, Step};
use mlr_spec::NoMemory;
use std::alloc::Global;
use std::mem::swap;

/// A verb of a chain, with a list for its output.
#[derive(Drop)]
pub struct Stage<S> {
    gate: Gate<S>,
    made: Events,
}

impl<S: Step + Drop> Stage<S> {
    /// Takes all events of a list, and replaces them by the verb's output. The two lists swap their memory,
    /// so that later events need no new memory. A verb that gives each event as it is isn't given them.
    fn take(&mut self, events: &mut Events) -> Result<(), NoMemory>
        requires represents { (given : List SpecEvent)
            × GateRepresents S.verb S.represents given self.old.gate
            × (is_list (given ++ events.old) ≡ true) }
        requires empty { self.old.made ≡ [] }
        ensures same { OnOk result (IsSameGate S.verb self.new.gate self.old.gate) }
        ensures empty { OnOk result (self.new.made ≡ []) }
        ensures represents { OnOk result ((given : List SpecEvent)
            → GateRepresents S.verb S.represents given self.old.gate
            → is_list (given ++ events.old) ≡ true
            → GateRepresents S.verb S.represents (given ++ events.old) self.new.gate) }
        ensures made { OnOk result ((given : List SpecEvent)
            → GateRepresents S.verb S.represents given self.old.gate
            → is_list (given ++ events.old) ≡ true
            → made_at self.old.gate.quiet (S.verb self.old.gate.verb) (given ++ events.old)
            ≡ made_at self.old.gate.quiet (S.verb self.old.gate.verb) given ++ events.new) }
    {
        if self.gate.passes_all() {
            self.gate.pass(events);
            return Ok(());
        }
        self.gate.take_all(events, &mut self.made)?;
        swap(events, &mut self.made);
        Ok(())
    }

    /// Whether the verb was closed. It doesn't allocate.
    pub fn is_shut(&self) -> bool
        ensures { result ≡ self.now.gate.shut }
    {
        self.gate.is_shut()
    }
}

/// A verb that has begun, at its place. `first` is what it gave when it began. It takes all events of `made`,
/// and replaces them by `first` and its output for them.
pub fn begun<S: Step + Drop>(
    alloc: Global,
    verb: S,
    quiet: bool,
    first: Events,
    made: &mut Events,
) -> Result<Stage<S>, NoMemory>
    requires verb { S.represents verb [] }
    requires first { first ≡ (S.verb verb).first }
    requires list { is_list made.old ≡ true }
    ensures same { IfOk result (λ stage. (S.verb stage.gate.verb ≡ S.verb verb)
        × (stage.gate.quiet ≡ quiet)) }
    ensures empty { IfOk result (λ stage. stage.made ≡ []) }
    ensures represents { IfOk result (λ stage. GateRepresents S.verb S.represents made.old
        stage.gate) }
    ensures made { OnOk result (made.new ≡ made_at quiet (S.verb verb) made.old) }
{
    let mut all = first;
    let mut gate = Gate::begun(verb, quiet, &mut all)?;
    gate.take_all(made, &mut all)?;
    swap(made, &mut all);
    Ok(Stage {
        gate,
        made: Events::new(alloc),
    })
}

/// Passes all events of a list through the verbs in turn, and replaces them by the output of the last verb.
pub fn pass<S: Step + Drop>(stages: &mut [Stage<S>], events: &mut Events) -> Result<(), NoMemory>
    requires { (quiet : Bool) × (given : List SpecEvent)
        × StagesRepresent S.verb S.represents quiet given stages.old
        × (is_list (given ++ events.old) ≡ true) }
    ensures same { OnOk result (verbs_of S.verb stages.new ≡ verbs_of S.verb stages.old) }
    ensures represents { OnOk result ((quiet : Bool) (given : List SpecEvent)
        → StagesRepresent S.verb S.represents quiet given stages.old
        → is_list (given ++ events.old) ≡ true
        → StagesRepresent S.verb S.represents quiet (given ++ events.old) stages.new) }
    ensures made { OnOk result ((quiet : Bool) (given : List SpecEvent)
        → StagesRepresent S.verb S.represents quiet given stages.old
        → is_list (given ++ events.old) ≡ true
        → chain_from quiet (verbs_of S.verb stages.old) (given ++ events.old)
        ≡ chain_from quiet (verbs_of S.verb stages.old) given ++ events.new) }
{
    for place in 0..stages.len() {
        stages[place].take(events)?;
    }
    Ok(())
}
