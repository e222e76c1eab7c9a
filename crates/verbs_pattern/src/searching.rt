//! Verbs that search each record by itself for patterns.
ghost use Rattle.std.specs.Prelude.{◌≡◌, [], List, OnOk};
ghost use Rattle.verbs_base.specs.Records.{Fields, each};
ghost use Rattle.verbs_base.specs.Taking.{GivesForAll};

use mlr_event::{Ctx, Event, Events};
use mlr_record::Record;
use mlr_spec::NoMemory;
use std::alloc::Global;
use verbs_base::{Each, PerRecord, Stateful};

/// The options of a verb that searches each record by itself for patterns.
pub trait Searches {
    /// What a record gives.
    ghost gives: { Self → Fields → List Fields };

    /// Takes all events of a list before its end in turn, with matchers that are made once for the list: a record gives
    /// what the options say, and any other event passes.
    fn search_all(
        &self,
        alloc: Global,
        events: &mut Events,
        out: &mut Events,
    ) -> Result<(), NoMemory>
        ensures empty { OnOk result (events.new ≡ []) }
        ensures gives { OnOk result (GivesForAll (each (gives self.now)) (λ given. Unit {0})
            events.old out.old out.new) };
}

/// Takes all events of a list in turn with a search, which has its matchers.
pub(crate) fn search_each<V: PerRecord + Drop>(
    alloc: Global,
    verb: V,
    events: &mut Events,
    out: &mut Events,
) -> Result<(), NoMemory>
    requires { V.sound verb }
    ensures empty { OnOk result (events.new ≡ []) }
    ensures gives { OnOk result (GivesForAll (each (V.gives verb)) (λ given. Unit {0})
        events.old out.old out.new) }
{
    Each { alloc, verb }.take_all(events, out)
}

/// A verb that searches records for patterns. A matcher borrows its pattern, so the verb makes its matchers once for
/// all records of a list.
#[derive(Drop)]
pub struct Searching<O> {
    alloc: Global,
    options: O,
}

impl<O: Searches + Drop> Searching<O> {
    /// The verb with these options, before the first record. It doesn't allocate.
    pub fn new(alloc: Global, options: O) -> Self
        ensures meaning { ⟦<Searching<O> as Stateful>⟧.meaning result ≡ each (O.gives options) }
        ensures represents { ⟦<Searching<O> as Stateful>⟧.represents result [] }
    {
        Searching { alloc, options }
    }
}

impl<O: Searches + Drop> Stateful for Searching<O> {
    ghost use Rattle.verbs_base.specs.Laws.{stream-shuts};
    ghost use Rattle.verbs_base.specs.Records.{each};

    ghost meaning = { λ s. each (O.gives s.options) };

    ghost represents = { λ s before. Unit {0} };

    ghost shuts = { λ s. stream-shuts (λ before. O.gives s.options) };

    fn take(&mut self, fields: Record, ctx: Ctx, out: &mut Events) -> Result<(), NoMemory> {
        let mut events = Events::new(self.alloc);
        events.push(Event::Rec(fields, ctx))?;
        self.options.search_all(self.alloc, &mut events, out)
    }

    fn take_all(&mut self, events: &mut Events, out: &mut Events) -> Result<(), NoMemory> {
        if events.len() == 0 {
            return Ok(());
        }
        self.options.search_all(self.alloc, events, out)
    }

    fn finish(&mut self, _: Ctx, _: &mut Events) -> Result<(), NoMemory> {
        Ok(())
    }

    fn is_shut(&self) -> bool {
        false
    }

    fn never_shuts(&self) -> bool {
        true
    }
}
