//! The verbs of a plan as a chain.
ghost use Rattle.std.specs.Prelude.{◌≡◌, ◌++◌, ◌∷◌, [], List, true, IfOk, OnOk, length};
ghost use Rattle.mlr_event.specs.Adding.{Adds};
ghost use Rattle.mlr_event.specs.declared.event.Event.{Event as SpecEvent};
ghost use Rattle.mlr_event.specs.Verb.{Verb as SpecVerb, is_open};
ghost use Rattle.verb_chain.specs.Chain.{chain, stopped};
ghost use Rattle.verb_chain.specs.Represents.{Represents as Chained, verbs_in};
ghost use Rattle.plan_verbs.specs.Plans.{IsSound};
ghost use Rattle.verb_specs.specs.Verbs.{AreSound, IsVerbOrSource, verb_with, verbs_with};
ghost use Rattle.plan_verbs.specs.Verbs.{AreNew, IsNew, WasGiven, meaning_in};
ghost use Rattle.plan_verbs.specs.Chains.{HasNotBegun, Represents};

use crate::lefts::Lefts;
use crate::plan::Plan;
use crate::verb::Verb;
use mlr_event::{Event, Events};
use mlr_spec::NoMemory;
use std::alloc::Global;
use std::mem::replace;
use verb_specs::VerbSpec;

/// The verbs of a plan one after another, without the source. It begins with `begin`, and represents the list of events
/// that it was given after that.
pub struct Chain {
    alloc: Global,
    /// The verbs that haven't begun.
    waiting: Vec<Verb>,
    stages: verb_chain::Chain<Verb>,
}

// Written by hand, so that the crates above call it instead of dropping the fields themselves.
impl Drop for Chain {
    fn drop(self) {
        let Chain {
            alloc: _,
            waiting,
            stages,
        } = self;
        drop(waiting);
        drop(stages);
    }
}

impl Chain {
    /// The verbs of a plan with what their left files hold, none of which has begun. It allocates for each verb.
    pub fn new(alloc: Global, plan: &Plan, lefts: Lefts) -> Result<Self, NoMemory>
        requires sound { IsSound plan.now }
        requires lefts { length lefts ≡ length plan.now.verbs }
        ensures { IfOk result (λ made. HasNotBegun (verbs_with plan.now.verbs lefts) made) }
    {
        Ok(Chain {
            alloc,
            waiting: new_verbs(alloc, plan.verbs.as_slice(), lefts.into_vec())?,
            stages: verb_chain::Chain::new(alloc),
        })
    }

    /// Appends the output of the last verb before all events. It is called once, before the first step.
    pub fn begin(&mut self, out: &mut Events) -> Result<(), NoMemory>
        requires { (verbs : List SpecVerb) × HasNotBegun verbs self.old }
        ensures represents { OnOk result ((verbs : List SpecVerb) → HasNotBegun verbs self.old
            → Represents verbs [] self.new) }
        ensures made { OnOk result ((verbs : List SpecVerb) → HasNotBegun verbs self.old
            → out.new ≡ out.old ++ chain verbs []) }
    {
        let mut made = Events::new(self.alloc);
        let waiting = replace(&mut self.waiting, Vec::new(self.alloc));
        begin_each(self.alloc, waiting, &mut self.stages, &mut made)?;
        out.append(&mut made)?;
        Ok(())
    }

    /// Takes an event, and appends the output of the last verb. No end and no fault may have been taken before.
    pub fn step(&mut self, event: Event, out: &mut Events) -> Result<(), NoMemory>
        requires { (verbs : List SpecVerb) × (given : List SpecEvent) × Represents verbs given self.old
            × (is_open given ≡ true) }
        ensures represents { OnOk result ((verbs : List SpecVerb) (given : List SpecEvent)
            → Represents verbs given self.old → is_open given ≡ true
            → Represents verbs (given ++ event ∷ []) self.new) }
        ensures adds { OnOk result ((verbs : List SpecVerb) (given : List SpecEvent)
            → Represents verbs given self.old → is_open given ≡ true
            → Adds out.old out.new (chain verbs given) (chain verbs (given ++ event ∷ []))) }
    {
        self.stages.step(event, out)
    }

    /// Whether a verb is closed, and no verb before it has effects. Then more events give nothing. It doesn't allocate.
    pub fn stopped(&self) -> bool
        ensures { (verbs : List SpecVerb) (given : List SpecEvent) → Represents verbs given self.now
            → result ≡ stopped verbs given }
    {
        self.stages.stopped()
    }

    /// The verbs that have begun.
    pub fn into_stages(self) -> verb_chain::Chain<Verb>
        ensures { result ≡ self.stages }
    {
        let Chain {
            alloc: _,
            waiting,
            stages,
        } = self;
        drop(waiting);
        stages
    }
}

/// The verbs of these options with what their left files hold, without a source.
fn new_verbs(alloc: Global, specs: &[VerbSpec], lefts: Vec<Events>) -> Result<Vec<Verb>, NoMemory>
    requires sound { AreSound specs.now }
    requires lefts { length lefts.items ≡ length specs.now }
    ensures { IfOk result (λ made. AreNew (verbs_with specs.now lefts.items) made.items) }
{
    let mut made = Vec::with_capacity(alloc, specs.len())?;
    let mut place = 0;
    for left in lefts {
        push_new(alloc, &specs[place], left, &mut made)?;
        place += 1;
    }
    Ok(made)
}

/// Appends the verb of these options with what its left file holds. A source is none.
fn push_new(
    alloc: Global,
    spec: &VerbSpec,
    left: Events,
    made: &mut Vec<Verb>,
) -> Result<(), NoMemory>
    requires { IsVerbOrSource spec.now }
    ensures { OnOk result ((verbs : List SpecVerb) → AreNew verbs made.old.items
        → AreNew (verbs ++ verb_with spec.now left) made.new.items) }
{
    if let VerbSpec::Seq(_) = spec {
        return Ok(());
    }
    made.push(Verb::new(alloc, spec, left)?)?;
    Ok(())
}

/// Begins verbs in turn, and appends them to a chain of those before them. `made` is the output of the chain.
fn begin_each(
    alloc: Global,
    waiting: Vec<Verb>,
    stages: &mut verb_chain::Chain<Verb>,
    made: &mut Events,
) -> Result<(), NoMemory>
    requires waiting { (verbs : List SpecVerb) × AreNew verbs waiting.items }
    requires chain { Chained meaning_in WasGiven [] stages.old }
    requires made { made.old ≡ chain (verbs_in meaning_in stages.old) [] }
    ensures verbs { OnOk result ((verbs : List SpecVerb) → AreNew verbs waiting.items
        → verbs_in meaning_in stages.new
        ≡ verbs_in meaning_in stages.old ++ verbs) }
    ensures represents { OnOk result
        (Chained meaning_in WasGiven [] stages.new) }
    ensures made { OnOk result (made.new ≡ chain (verbs_in meaning_in stages.new) []) }
{
    for verb in waiting {
        begin_one(alloc, verb, stages, made)?;
    }
    Ok(())
}

/// Begins a verb, and appends it.
fn begin_one(
    alloc: Global,
    verb: Verb,
    stages: &mut verb_chain::Chain<Verb>,
    made: &mut Events,
) -> Result<(), NoMemory>
    requires verb { (meaning : SpecVerb) × IsNew meaning verb }
    requires chain { Chained meaning_in WasGiven [] stages.old }
    requires made { made.old ≡ chain (verbs_in meaning_in stages.old) [] }
    ensures verbs { OnOk result ((meaning : SpecVerb) → IsNew meaning verb
        → verbs_in meaning_in stages.new
        ≡ verbs_in meaning_in stages.old ++ meaning ∷ []) }
    ensures represents { OnOk result
        (Chained meaning_in WasGiven [] stages.new) }
    ensures made { OnOk result (made.new ≡ chain (verbs_in meaning_in stages.new) []) }
{
    let mut first = Events::new(alloc);
    let mut verb = verb;
    verb.begin(&mut first)?;
    stages.push(verb, first, made)
}
