//! `tail`: the last records.
ghost use Rattle.std.specs.Prelude.{◌≡◌, [], IfOk};
ghost use Rattle.verbs_hold.specs.Tail.{last_rows, tail};

use group_state::{AtEnd, OfGroup, OfGroups};
use mlr_event::{Ctx, Event, Events, Names};
use mlr_groups::GroupBy;
use mlr_record::Record;
use mlr_spec::NoMemory;
use std::alloc::Global;
use verbs_base::Stateful;

/// The options of `tail`.
#[derive(Drop)]
pub struct Tail {
    /// The number of records that are given.
    pub count: u64,
    /// The grouping fields: the last `count` records of each group are given.
    pub groups: Option<Names>,
}

/// The verb `tail`.
pub type TailVerb = OfGroups<LastRows>;

impl Tail {
    /// A copy. It allocates for the names of the grouping fields.
    pub fn copy(&self, _: Global) -> Result<Self, NoMemory>
        ensures { IfOk result (λ copy. copy ≡ self.now) }
    {
        Ok(Tail {
            count: self.count,
            groups: self.groups.as_ref().map(Names::copy).transpose()?,
        })
    }

    /// The verb before the first record. It doesn't allocate.
    pub fn verb(self, alloc: Global) -> TailVerb
        ensures meaning { ⟦<TailVerb as Stateful>⟧.meaning result ≡ tail self }
        ensures represents { ⟦<TailVerb as Stateful>⟧.represents result [] }
    {
        let Tail { count, groups } = self;
        let names = match groups {
            Some(names) => names,
            None => Names::new(alloc),
        };
        let rows = Events::new(alloc);
        OfGroups::new(alloc, GroupBy::Texts(names), LastRows { count, rows })
    }
}

/// The last records of a group.
#[derive(Drop)]
pub struct LastRows {
    /// How many records are kept.
    count: u64,
    rows: Events,
}

impl AtEnd for LastRows {
    ghost use Rattle.std.specs.Prelude.{◌≡◌};
    ghost use Rattle.verbs_base.specs.Records.{events_of};
    ghost use Rattle.verbs_hold.specs.Tail.{last_rows};

    ghost gives = { λ s rows ctx. last_rows s.count rows };

    ghost holds = { λ s rows. s.rows ≡ events_of (last_rows s.count rows) };

    fn add(&mut self, _: Global, fields: Record, ctx: Ctx) -> Result<(), NoMemory> {
        self.rows.push(Event::Rec(fields, ctx))?;
        if self.rows.len() as u64 > self.count {
            self.rows.pop_first();
        }
        Ok(())
    }

    fn finish(&mut self, _: Global, _: Ctx, out: &mut Events) -> Result<(), NoMemory> {
        out.append(&mut self.rows)
    }
}

impl OfGroup for LastRows {
    fn fresh(&self, alloc: Global) -> Result<Self, NoMemory> {
        Ok(LastRows {
            count: self.count,
            rows: Events::new(alloc),
        })
    }
}
