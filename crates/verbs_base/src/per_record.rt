//! Verbs that take each record by itself.
ghost use Rattle.std.specs.Prelude.{◌≡◌, ◌<◌, List, length, IfOk, OnOk};
ghost use Rattle.std.specs.List.{swap};
ghost use Rattle.std.specs.Option.{option_to_list};
ghost use Rattle.verbs_base.specs.Records.{Fields};
ghost use Rattle.verbs_base.specs.Replacing.{IsReplaced, given_of_all};

use crate::stateful::Stateful;
use mlr_event::{Ctx, Event, Events};
use mlr_record::Record;
use mlr_spec::NoMemory;
use std::alloc::Global;
use std::mem::forget;

/// A verb of which each record gives a record or none, by itself. What it keeps from one record to the next, as the room
/// of a search, doesn't change what it gives.
pub trait PerRecord {
    /// What a record gives.
    ghost gives: { Self → Fields → List Fields };

    /// The options are in the ranges that it may be given.
    ghost sound: { Self → Type 0 };

    /// The record that the verb gives for a record, if it gives one.
    fn made(&mut self, alloc: Global, fields: Record) -> Result<Option<Record>, NoMemory>
        requires { sound self.old }
        ensures made { IfOk result (λ made. option_to_list made ≡ gives self.old fields) }
        ensures gives { gives self.new ≡ gives self.old }
        ensures sound { sound self.new };
}

/// A verb that takes each record by itself, as a verb over records.
#[derive(Drop)]
pub struct Each<V> {
    pub alloc: Global,
    pub verb: V,
}

impl<V: PerRecord> Each<V> {
    /// Replaces each record, in its place, by the one that the verb gives for it, and removes those for which it gives none.
    fn replace_all(&mut self, events: &mut Events) -> Result<(), NoMemory>
        requires { V.sound self.old.verb }
        ensures gives { V.gives self.new.verb ≡ V.gives self.old.verb }
        ensures sound { V.sound self.new.verb }
        ensures given { OnOk result (events.new
            ≡ given_of_all (V.gives self.old.verb) events.old) }
    {
        let mut kept = 0;
        for place in 0..events.len() {
            if self.replace(events, place)? {
                swap_apart(events, kept, place);
                kept += 1;
            }
        }
        events.truncate(kept);
        Ok(())
    }

    /// Replaces the record at this place by the one that the verb gives for it, and returns false if it gives none. Another
    /// event stays as it is.
    #[inline(always)]
    fn replace(&mut self, events: &mut Events, place: usize) -> Result<bool, NoMemory>
        requires sound { V.sound self.old.verb }
        requires within { place < length events.old }
        ensures gives { V.gives self.new.verb ≡ V.gives self.old.verb }
        ensures sound { V.sound self.new.verb }
        ensures replaced { IfOk result (λ kept. IsReplaced (V.gives self.old.verb) kept
            events.old events.new place) }
    {
        let nothing = Record::of_fields(self.alloc, Vec::new(self.alloc));
        let Some(fields) = events.replace_fields(place, nothing) else {
            return Ok(true);
        };
        let Some(made) = self.verb.made(self.alloc, fields)? else {
            return Ok(false);
        };
        // The record that waited in the place has no fields and holds no memory.
        forget(events.replace_fields(place, made));
        Ok(true)
    }
}

/// Swaps the events at two places. Where no record was removed they are one place, and nothing is moved.
#[inline(always)]
fn swap_apart(events: &mut Events, one: usize, other: usize)
    requires one { one < length events.old }
    requires other { other < length events.old }
    ensures { events.new ≡ swap events.old one other }
{
    if one != other {
        events.swap(one, other);
    }
}

impl<V: PerRecord + Drop> Stateful for Each<V> {
    ghost use Rattle.verbs_base.specs.Laws.{stream-shuts};
    ghost use Rattle.verbs_base.specs.Records.{each};

    ghost meaning = { λ s. each (V.gives s.verb) };

    ghost represents = { λ s before. V.sound s.verb };

    ghost shuts = { λ s. stream-shuts (λ before. V.gives s.verb) };

    fn take(&mut self, fields: Record, ctx: Ctx, out: &mut Events) -> Result<(), NoMemory> {
        match self.verb.made(self.alloc, fields)? {
            Some(made) => out.push(Event::Rec(made, ctx)),
            None => Ok(()),
        }
    }

    fn take_all(&mut self, events: &mut Events, out: &mut Events) -> Result<(), NoMemory> {
        self.replace_all(events)?;
        out.append(events)?;
        Ok(())
    }

    fn finish(&mut self, _: Ctx, _: &mut Events) -> Result<(), NoMemory> {
        Ok(())
    }

    fn is_shut(&self) -> bool {
        false
    }

    fn never_shuts(&self) -> bool {
        true
    }
}
