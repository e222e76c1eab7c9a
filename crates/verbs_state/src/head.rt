//! `head`: passes the first records.
ghost use Rattle.std.specs.Prelude.{◌≡◌, [], None, IfOk, IsOk};
ghost use Rattle.verbs_state.specs.Head.{head};

use crate::counted::no_tallies;
use mlr_event::{Ctx, Event, Events, Names};
use mlr_groups::{Tallies, next_count};
use mlr_record::Record;
use mlr_spec::NoMemory;
use std::alloc::Global;
use verbs_base::Stateful;

/// The options of `head`.
#[derive(Drop)]
pub struct Head {
    /// The number of records that pass.
    pub count: u64,
    /// The grouping fields: `count` records of each group pass.
    pub groups: Option<Names>,
}

impl Head {
    /// A copy. It allocates for the names of the grouping fields.
    pub fn copy(&self, _: Global) -> Result<Self, NoMemory>
        ensures same { IfOk result (λ copy. copy ≡ self.now) }
        ensures ungrouped { self.now.groups ≡ None → IsOk result }
    {
        Ok(Head {
            count: self.count,
            groups: self.groups.as_ref().map(Names::copy).transpose()?,
        })
    }
}

/// The verb `head`.
#[derive(Drop)]
pub struct HeadVerb {
    options: Head,
    tallies: Tallies,
    /// The number of records that it was given.
    given: u64,
}

impl HeadVerb {
    /// The verb with these options, before the first record.
    pub fn new(alloc: Global, options: Head) -> Result<Self, NoMemory>
        ensures meaning { IfOk result (λ made. ⟦<HeadVerb as Stateful>⟧.meaning made
            ≡ head options) }
        ensures represents { IfOk result (λ made. ⟦<HeadVerb as Stateful>⟧.represents made []) }
    {
        let tallies = no_tallies(alloc, &options.groups)?;
        Ok(HeadVerb {
            options,
            tallies,
            given: 0,
        })
    }
}

impl Stateful for HeadVerb {
    ghost use Rattle.verbs_base.specs.Records.{records};
    ghost use Rattle.verbs_state.specs.Head.{HeadRepresents, head};
    ghost use Rattle.verbs_state.specs.Ungrouped.{head-shuts};

    ghost meaning = { λ s. head s.options };

    ghost represents = { λ s before. HeadRepresents s (records before) };

    ghost shuts = { λ s. head-shuts s.options };

    fn take(&mut self, fields: Record, ctx: Ctx, out: &mut Events) -> Result<(), NoMemory> {
        self.given = next_count(self.given);
        match self.tallies.count(&fields)? {
            Some(count) if count < self.options.count => out.push(Event::Rec(fields, ctx)),
            _ => Ok(()),
        }
    }

    fn finish(&mut self, _: Ctx, _: &mut Events) -> Result<(), NoMemory> {
        Ok(())
    }

    fn is_shut(&self) -> bool {
        self.options.groups.is_none() && self.options.count <= self.given
    }

    fn never_shuts(&self) -> bool {
        self.options.groups.is_some()
    }
}
