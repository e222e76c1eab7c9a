//! Lists of events.
ghost use Rattle.std.specs.Prelude.{◌≡◌, ◌<◌, ◌++◌, ◌∷◌, [], length, set, take, if◌then◌else◌, is_ok, slice_get, slice_index_or, None};
ghost use Rattle.std.specs.List.{swap};
ghost use Rattle.std.specs.Option.{option_map, option_to_list};
ghost use Rattle.mlr_event.specs.declared.event.Event.{Event as SpecEvent};
ghost use Rattle.mlr_event.specs.InPlace.{fields_in, with_fields};

use crate::Event;
use mlr_record::Record;
use mlr_spec::NoMemory;
use std::alloc::Global;
use std::collections::VecDeque;
use std::marker::Model;
use std::mem::{replace, swap};

/// A list of events, in order. It is filled at its end and emptied from its start, and keeps its memory.
pub struct Events {
    events: VecDeque<Event>,
}

// Written by hand, so that the crates above call it instead of dropping the fields themselves.
impl Drop for Events {
    #[inline]
    fn drop(self) {
        let Events { events } = self;
        drop(events);
    }
}

impl Model for Events {
    ghost use Rattle.std.specs.Prelude.{List};
    ghost use Rattle.std.specs.Coded.{codes};
    ghost use Rattle.mlr_spec.specs.TreeCode.{coded_tree};
    ghost use Rattle.mlr_event.specs.declared.event.Event.{Event};

    ghost Value = { List Event };

    ghost coded = { Prim.hlevel (codes, coded_tree) };

    ghost view = { λ e. e.events.items };
}

impl Events {
    /// No events. It takes no memory.
    pub fn new(alloc: Global) -> Self
        ensures { result ≡ [] }
    {
        Events {
            events: VecDeque::new(alloc),
        }
    }

    /// How many events there are.
    pub fn len(&self) -> usize
        ensures { result ≡ length self.now }
    {
        self.events.len()
    }

    /// The event at this place, which counts from 0.
    pub fn at(&self, place: usize) -> Option<&Event>
        ensures { option_map (λ event. event.now) result ≡ slice_get self.now place }
    {
        self.events.get(place)
    }

    /// Appends an event.
    #[inline]
    pub fn push(&mut self, event: Event) -> Result<(), NoMemory>
        ensures { self.new ≡ (if is_ok result then self.old ++ event ∷ [] else self.old) }
    {
        self.events.push_back(event)?;
        Ok(())
    }

    /// Takes the first event out, if there is one. It doesn't allocate.
    #[inline]
    pub fn pop_first(&mut self) -> Option<Event>
        ensures events { self.old ≡ option_to_list result ++ self.new }
        ensures none { result ≡ None → self.new ≡ [] }
    {
        self.events.pop_front()
    }

    /// Takes the last event out, if there is one. It doesn't allocate.
    #[inline]
    pub fn pop_last(&mut self) -> Option<Event>
        ensures events { self.old ≡ self.new ++ option_to_list result }
        ensures none { result ≡ None → self.new ≡ [] }
    {
        self.events.pop_back()
    }

    /// Replaces the fields of the record at this place, and returns those that it had. Another event stays as it is. It
    /// doesn't allocate.
    #[inline(always)]
    pub fn replace_fields(&mut self, place: usize, fields: Record) -> Option<Record>
        requires { place < length self.old }
        ensures had { (e : SpecEvent) → result ≡ fields_in (slice_index_or self.old place e) }
        ensures new { (e : SpecEvent) → self.new
            ≡ set self.old place (with_fields fields (slice_index_or self.old place e)) }
    {
        match &mut self.events[place] {
            Event::Rec(record, _) => Some(replace(record, fields)),
            _ => None,
        }
    }

    /// Swaps the events at two places. It doesn't allocate.
    #[inline]
    pub fn swap(&mut self, one: usize, other: usize)
        requires one { one < length self.old }
        requires other { other < length self.old }
        ensures { self.new ≡ swap self.old one other }
    {
        self.events.swap(one, other);
    }

    /// Drops the events after the first `count`.
    pub fn truncate(&mut self, count: usize)
        ensures { self.new ≡ take count self.old }
    {
        self.events.truncate(count);
    }

    /// Appends all events of another list, and leaves it empty. An empty list swaps its memory with the other's.
    pub fn append(&mut self, other: &mut Events) -> Result<(), NoMemory>
        ensures events { self.new ≡ (if is_ok result then self.old ++ other.old else self.old) }
        ensures other { other.new ≡ (if is_ok result then [] else other.old) }
    {
        if self.events.is_empty() {
            swap(&mut self.events, &mut other.events);
            return Ok(());
        }
        self.events.append(&mut other.events)?;
        Ok(())
    }

    /// The events, as a vector.
    pub fn into_vec(self) -> Vec<Event>
        ensures { result.items ≡ self }
    {
        let Events { events } = self;
        Vec::from(events)
    }
}
