//! A verb at its place in a chain, which gets its end early if it is closed.
ghost use Rattle.std.specs.Prelude.{◌≡◌, ◌++◌, ◌∷◌, ◌&&◌, [], List, true, false, not, IfOk, IsTrue, OnOk};
ghost use Rattle.std.specs.Option.{unwrap_or};
ghost use Rattle.mlr_event.specs.Adding.{Adds};
ghost use Rattle.mlr_event.specs.declared.event.Ctx.{Ctx as SpecCtx};
ghost use Rattle.mlr_event.specs.declared.event.Event.{Event as SpecEvent};
ghost use Rattle.mlr_event.specs.Verb.{PassesAll, is_last, is_list, is_open};
ghost use Rattle.verb_chain.specs.Chain.{context_or, last_context};
ghost use Rattle.verb_chain.specs.Represents.{GateRepresents, IsSameGate, is_cut, made_at};

use mlr_event::{Ctx, Event, Events, Step};
use mlr_spec::NoMemory;

/// A verb at its place in a chain. At a quiet place it is given only the events until it is closed, and then
/// the end.
#[derive(Drop)]
pub struct Gate<S> {
    verb: S,
    /// Whether no verb before it has effects.
    quiet: bool,
    /// The context of the last event that has one.
    at: Ctx,
    /// Whether it was closed, and has been given its end.
    shut: bool,
}

impl<S: Step + Drop> Gate<S> {
    /// A verb that has begun, at its place. `made` is what it gave when it began; if the verb is closed
    /// already, what it gives for the end is appended.
    pub fn begun(verb: S, quiet: bool, made: &mut Events) -> Result<Self, NoMemory>
        requires verb { S.represents verb [] }
        requires first { made.old ≡ (S.verb verb).first }
        ensures same { IfOk result (λ gate. (S.verb gate.verb ≡ S.verb verb)
            × (gate.quiet ≡ quiet)) }
        ensures represents { IfOk result (λ gate. GateRepresents S.verb S.represents [] gate) }
        ensures made { OnOk result (made.new ≡ made_at quiet (S.verb verb) []) }
    {
        let at = Ctx {
            nr: 0,
            fnr: 0,
            filenum: 0,
        };
        let shut = quiet && verb.closed();
        let mut verb = verb;
        if shut {
            verb.step(Event::End(at), made)?;
        }
        Ok(Gate {
            verb,
            quiet,
            at,
            shut,
        })
    }

    /// Whether it was closed. It doesn't allocate.
    pub fn is_shut(&self) -> bool
        ensures { result ≡ self.now.shut }
    {
        self.shut
    }

    /// Whether the verb gives each event as it is, and is never closed. It doesn't allocate.
    pub fn passes_all(&self) -> bool
        ensures { IsTrue result → PassesAll (S.verb self.now.verb) (S.represents self.now.verb) }
    {
        self.verb.passes_all()
    }

    /// Takes all events of a list, which are the output for them too. It doesn't allocate.
    pub fn pass(&mut self, events: &Events)
        requires { PassesAll (S.verb self.old.verb) (S.represents self.old.verb) }
        ensures same { IsSameGate S.verb self.new self.old }
        ensures represents { (given : List SpecEvent)
            → GateRepresents S.verb S.represents given self.old
            → is_list (given ++ events.now) ≡ true
            → GateRepresents S.verb S.represents (given ++ events.now) self.new }
        ensures made { (given : List SpecEvent)
            → GateRepresents S.verb S.represents given self.old
            → is_list (given ++ events.now) ≡ true
            → made_at self.old.quiet (S.verb self.old.verb) (given ++ events.now)
            ≡ made_at self.old.quiet (S.verb self.old.verb) given ++ events.now }
    {
        self.at = last_context(self.at, events);
    }

    /// Takes an event, and appends the verb's output to `out`.
    pub fn take(&mut self, event: Event, out: &mut Events) -> Result<(), NoMemory>
        requires { (given : List SpecEvent) × GateRepresents S.verb S.represents given self.old
            × (is_open given ≡ true) }
        ensures same { OnOk result (IsSameGate S.verb self.new self.old) }
        ensures represents { OnOk result ((given : List SpecEvent)
            → GateRepresents S.verb S.represents given self.old → is_open given ≡ true
            → GateRepresents S.verb S.represents (given ++ event ∷ []) self.new) }
        ensures adds { OnOk result ((given : List SpecEvent)
            → GateRepresents S.verb S.represents given self.old → is_open given ≡ true
            → Adds out.old out.new (made_at self.old.quiet (S.verb self.old.verb) given)
            (made_at self.old.quiet (S.verb self.old.verb) (given ++ event ∷ []))) }
    {
        if self.shut {
            return Ok(());
        }
        let ends = is_last(&event);
        self.at = context_or(self.at, &event);
        self.verb.step(event, out)?;
        if self.is_closed(ends) {
            self.shut = true;
            self.verb.step(Event::End(self.at), out)?;
        }
        Ok(())
    }

    /// Takes all events of a list in turn, and leaves the list empty.
    pub fn take_all(&mut self, events: &mut Events, out: &mut Events) -> Result<(), NoMemory>
        requires { (given : List SpecEvent) × GateRepresents S.verb S.represents given self.old
            × (is_list (given ++ events.old) ≡ true) }
        ensures left { OnOk result (events.new ≡ []) }
        ensures same { OnOk result (IsSameGate S.verb self.new self.old) }
        ensures represents { OnOk result ((given : List SpecEvent)
            → GateRepresents S.verb S.represents given self.old
            → is_list (given ++ events.old) ≡ true
            → GateRepresents S.verb S.represents (given ++ events.old) self.new) }
        ensures adds { OnOk result ((given : List SpecEvent)
            → GateRepresents S.verb S.represents given self.old
            → is_list (given ++ events.old) ≡ true
            → Adds out.old out.new (made_at self.old.quiet (S.verb self.old.verb) given)
            (made_at self.old.quiet (S.verb self.old.verb) (given ++ events.old))) }
    {
        if self.never_shuts() {
            self.take_whole(events, out)
        } else {
            self.take_each(events, out)
        }
    }

    /// The same, where no event closes the verb: it takes the list at once.
    fn take_whole(&mut self, events: &mut Events, out: &mut Events) -> Result<(), NoMemory>
        requires never { (given : List SpecEvent)
            → is_cut self.old.quiet (S.verb self.old.verb) given ≡ false }
        requires list { (given : List SpecEvent) × GateRepresents S.verb S.represents given self.old
            × (is_list (given ++ events.old) ≡ true) }
        ensures left { OnOk result (events.new ≡ []) }
        ensures same { OnOk result (IsSameGate S.verb self.new self.old) }
        ensures represents { OnOk result ((given : List SpecEvent)
            → GateRepresents S.verb S.represents given self.old
            → is_list (given ++ events.old) ≡ true
            → GateRepresents S.verb S.represents (given ++ events.old) self.new) }
        ensures adds { OnOk result ((given : List SpecEvent)
            → GateRepresents S.verb S.represents given self.old
            → is_list (given ++ events.old) ≡ true
            → Adds out.old out.new (made_at self.old.quiet (S.verb self.old.verb) given)
            (made_at self.old.quiet (S.verb self.old.verb) (given ++ events.old))) }
    {
        self.at = last_context(self.at, events);
        self.verb.step_all(events, out)?;
        Ok(())
    }

    /// The same, where an event may close the verb.
    fn take_each(&mut self, events: &mut Events, out: &mut Events) -> Result<(), NoMemory>
        requires { (given : List SpecEvent) × GateRepresents S.verb S.represents given self.old
            × (is_list (given ++ events.old) ≡ true) }
        ensures left { OnOk result (events.new ≡ []) }
        ensures same { OnOk result (IsSameGate S.verb self.new self.old) }
        ensures represents { OnOk result ((given : List SpecEvent)
            → GateRepresents S.verb S.represents given self.old
            → is_list (given ++ events.old) ≡ true
            → GateRepresents S.verb S.represents (given ++ events.old) self.new) }
        ensures adds { OnOk result ((given : List SpecEvent)
            → GateRepresents S.verb S.represents given self.old
            → is_list (given ++ events.old) ≡ true
            → Adds out.old out.new (made_at self.old.quiet (S.verb self.old.verb) given)
            (made_at self.old.quiet (S.verb self.old.verb) (given ++ events.old))) }
    {
        while let Some(event) = events.pop_first() {
            self.take(event, out)?;
        }
        Ok(())
    }

    /// Whether no list of events closes the verb at its place, as far as it knows.
    fn never_shuts(&self) -> bool
        ensures { IsTrue result → (given : List SpecEvent)
            → is_cut self.now.quiet (S.verb self.now.verb) given ≡ false }
    {
        !self.quiet || self.verb.never_closes()
    }

    /// Whether the last event closed the verb, at a quiet place and before the list ends.
    fn is_closed(&self, ends: bool) -> bool
        ensures { (given : List SpecEvent) → S.represents self.now.verb given
            → result ≡ (self.now.quiet && (not ends && (S.verb self.now.verb).closed given)) }
    {
        self.quiet && !ends && self.verb.closed()
    }
}

/// Whether an event is an end or a fault.
fn is_last(event: &Event) -> bool
    ensures { result ≡ is_last event.now }
{
    matches!(event, Event::End(_) | Event::Fault(_))
}

/// The context of the last event that has one, or `other`.
fn last_context(other: Ctx, events: &Events) -> Ctx
    ensures { result ≡ last_context other events.now }
{
    let mut place = events.len();
    while place > 0 {
        place -= 1;
        if let Some(event) = events.at(place) {
            if let Some(ctx) = context_in(event) {
                return ctx;
            }
        }
    }
    other
}

/// The context of an event, if it has one.
fn context_in(event: &Event) -> Option<Ctx>
    ensures { (other : SpecCtx) → context_or other event.now ≡ unwrap_or result other }
{
    match event {
        Event::Rec(_, ctx) | Event::End(ctx) => Some(*ctx),
        _ => None,
    }
}

/// The context of an event, or `other` for an event without one.
fn context_or(other: Ctx, event: &Event) -> Ctx
    ensures { result ≡ context_or other event.now }
{
    context_in(event).unwrap_or(other)
}
