//! Verbs over records as verbs over events.
ghost use Rattle.std.specs.Prelude.{◌≡◌, ◌++◌, ◌∷◌, [], List, None, Some, false, true, OnOk};
ghost use Rattle.mlr_event.specs.declared.event.Event.{Event as SpecEvent};
ghost use Rattle.mlr_event.specs.Verb.{gives, is_last};
ghost use Rattle.verbs_base.specs.Records.{Row, records, row_in, rows_in, verb_of};

use crate::stateful::Stateful;
use mlr_event::{Event, Events, Step};
use mlr_spec::NoMemory;

/// A verb over records as a verb of a chain: records and the end go to the verb, and any other event passes.
pub struct OverEvents<V> {
    verb: V,
    broken: bool,
    /// Whether the verb was closed when its list ended, or None while more events may come.
    shut: Option<bool>,
}

// Written by hand, so that the crates above call it instead of dropping the fields themselves.
impl<V: Drop> Drop for OverEvents<V> {
    fn drop(self) {
        let OverEvents {
            verb,
            broken: _,
            shut: _,
        } = self;
        drop(verb);
    }
}

impl<V: Stateful + Drop> OverEvents<V> {
    /// The verb before the first event. It doesn't allocate.
    pub fn new(verb: V) -> Self
        requires { V.represents verb [] }
        ensures verb { ⟦<OverEvents<V> as Step>⟧.verb result ≡ verb_of (V.meaning verb) }
        ensures represents { ⟦<OverEvents<V> as Step>⟧.represents result [] }
    {
        OverEvents {
            verb,
            broken: false,
            shut: None,
        }
    }
}

/// Takes an event: the verb takes a record or the end, and any other event passes.
fn take<V: Stateful>(verb: &mut V, event: Event, out: &mut Events) -> Result<(), NoMemory>
    requires { (before : List Row) × V.represents verb.old before }
    ensures meaning { V.meaning verb.new ≡ V.meaning verb.old }
    ensures represents { OnOk result (is_last event ≡ false → (before : List Row)
        → V.represents verb.old before → V.represents verb.new (before ++ row_in event)) }
    ensures gives { OnOk result ((given : List SpecEvent) → V.represents verb.old (rows_in given)
        → out.new ≡ out.old ++ gives (verb_of (V.meaning verb.old)) given event) }
{
    match event {
        Event::End(ctx) => {
            verb.finish(ctx, out)?;
            out.push(Event::End(ctx))?;
            Ok(())
        }
        other => verb.pass(other, out),
    }
}

/// Whether the verb is closed when its list ends with this event, or None if the list goes on.
fn shut_by<V: Stateful>(verb: &V, event: &Event) -> Option<bool>
    ensures ended { is_last event.now ≡ true → (before : List Row) → V.represents verb.now before
        → result ≡ Some ((V.meaning verb.now).closed (records before)) }
    ensures open { is_last event.now ≡ false → result ≡ None }
{
    if is_last(event) {
        Some(verb.is_shut())
    } else {
        None
    }
}

/// Whether an event is an end or a fault.
fn is_last(event: &Event) -> bool
    ensures { result ≡ is_last event.now }
{
    matches!(event, Event::End(_) | Event::Fault(_))
}

impl<V: Stateful + Drop> Step for OverEvents<V> {
    ghost use Rattle.std.specs.Prelude.{◌≡◌, false, true};
    ghost use Rattle.mlr_event.specs.Models.{never-both};
    ghost use Rattle.verbs_base.specs.Laws.{verb-closes, verb-orderly, verb-quiet};
    ghost use Rattle.verbs_base.specs.OverEvents.{WasGiven};
    ghost use Rattle.verbs_base.specs.Records.{verb_of};

    ghost verb = { λ s. verb_of (V.meaning s.verb) };

    ghost represents = { λ s given. (s.broken ≡ false)
        × WasGiven (V.meaning s.verb) (V.represents s.verb) s.shut given };

    ghost broken = { λ s. s.broken ≡ true };

    ghost whole = { λ s given holds is. never-both s.broken holds.0 is };

    ghost quiet = { λ s. verb-quiet (V.meaning s.verb) };

    ghost orderly = { λ s. verb-orderly (V.meaning s.verb) };

    ghost closes = { λ s. verb-closes (V.meaning s.verb) (V.shuts s.verb) };

    fn step(&mut self, event: Event, out: &mut Events) -> Result<(), NoMemory> {
        let shut = shut_by(&self.verb, &event);
        if let Err(error) = take(&mut self.verb, event, out) {
            self.broken = true;
            return Err(error);
        }
        self.shut = shut;
        Ok(())
    }

    fn step_all(&mut self, events: &mut Events, out: &mut Events) -> Result<(), NoMemory> {
        // The last event may be the end.
        let Some(last) = events.pop_last() else {
            return Ok(());
        };
        if let Err(error) = self.verb.take_all(events, out) {
            self.broken = true;
            return Err(error);
        }
        self.step(last, out)?;
        Ok(())
    }

    fn never_closes(&self) -> bool {
        self.verb.never_shuts()
    }

    fn closed(&self) -> bool {
        match self.shut {
            Some(shut) => shut,
            None => self.verb.is_shut(),
        }
    }

    fn has_effects(&self) -> bool {
        false
    }

    fn passes_all(&self) -> bool {
        self.verb.passes_each()
    }

    fn is_broken(&self) -> bool {
        self.broken
    }
}
