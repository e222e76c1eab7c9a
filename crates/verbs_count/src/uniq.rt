//! `uniq`: the first record of each group, at once or at the end with the number of records of its group.
ghost use Rattle.std.specs.Prelude.{◌≡◌, [], IfOk};
ghost use Rattle.verbs_count.specs.Uniq.{uniq_counted, uniq_first};

use group_state::{AtEnd, OfGroup, OfGroups, count_value};
use mlr_event::{Ctx, Event, Events};
use mlr_groups::{GroupBy, Groups, next_count};
use mlr_record::Record;
use mlr_spec::NoMemory;
use std::alloc::Global;
use verbs_base::Stateful;

/// What `uniq` gives.
#[derive(Drop)]
pub enum UniqShow {
    /// The first record of each group, at once.
    First,
    /// `-c`: the first record of each group, at the end, with the number of records of its group.
    Counted,
    /// `-n`: the number of groups.
    Number,
}

/// The options of `uniq`.
#[derive(Drop)]
pub struct Uniq {
    /// The grouping fields, or with `-a` the names and texts of all fields.
    pub by: GroupBy,
    pub show: UniqShow,
}

impl Uniq {
    /// A copy. It allocates for the names.
    pub fn copy(&self, _: Global) -> Result<Self, NoMemory>
        ensures { IfOk result (λ copy. copy ≡ self.now) }
    {
        let show = match self.show {
            UniqShow::First => UniqShow::First,
            UniqShow::Counted => UniqShow::Counted,
            UniqShow::Number => UniqShow::Number,
        };
        Ok(Uniq {
            by: self.by.copy()?,
            show,
        })
    }
}

/// The verb `uniq` without `-c` and `-n`: the first record of each group, at once.
#[derive(Drop)]
pub struct UniqFirstVerb {
    groups: Groups,
}

impl UniqFirstVerb {
    /// The verb before the first record. It doesn't allocate.
    pub fn new(alloc: Global, by: GroupBy) -> Self
        ensures meaning { ⟦<UniqFirstVerb as Stateful>⟧.meaning result ≡ uniq_first by }
        ensures represents { ⟦<UniqFirstVerb as Stateful>⟧.represents result [] }
    {
        UniqFirstVerb {
            groups: Groups::new(alloc, by),
        }
    }
}

impl Stateful for UniqFirstVerb {
    ghost use Rattle.mlr_groups.specs.Represents.{GroupsOf};
    ghost use Rattle.verbs_base.specs.Laws.{stream-shuts};
    ghost use Rattle.verbs_base.specs.Records.{records};
    ghost use Rattle.verbs_count.specs.Uniq.{uniq_first, uniq_gives};

    ghost meaning = { λ s. uniq_first s.groups.by };

    ghost represents = { λ s before. GroupsOf s.groups.by (records before) s.groups };

    ghost shuts = { λ s. stream-shuts (uniq_gives s.groups.by) };

    fn take(&mut self, fields: Record, ctx: Ctx, out: &mut Events) -> Result<(), NoMemory> {
        let known = self.groups.len();
        let Some(place) = self.groups.enter(&fields)? else {
            return Ok(());
        };
        if place < known {
            return Ok(());
        }
        out.push(Event::Rec(fields, ctx))
    }

    fn finish(&mut self, _: Ctx, _: &mut Events) -> Result<(), NoMemory> {
        Ok(())
    }

    fn is_shut(&self) -> bool {
        false
    }

    fn never_shuts(&self) -> bool {
        true
    }
}

/// The verb `uniq -c`: at the end the first record of each group, with the number of records of its group as its
/// first field.
pub type UniqCountedVerb = OfGroups<CountedFirst>;

impl CountedFirst {
    /// The verb before the first record. It doesn't allocate.
    pub fn verb(alloc: Global, by: GroupBy) -> UniqCountedVerb
        ensures meaning { ⟦<UniqCountedVerb as Stateful>⟧.meaning result ≡ uniq_counted by }
        ensures represents { ⟦<UniqCountedVerb as Stateful>⟧.represents result [] }
    {
        let none = CountedFirst {
            first: None,
            count: 0,
        };
        OfGroups::new(alloc, by, none)
    }
}

/// The first record of a group, and the number of its records.
#[derive(Drop)]
pub struct CountedFirst {
    first: Option<Event>,
    count: u64,
}

impl AtEnd for CountedFirst {
    ghost use Rattle.std.specs.Prelude.{◌≡◌, length};
    ghost use Rattle.mlr_groups.specs.Tallying.{capped};
    ghost use Rattle.verbs_count.specs.Uniq.{counted_first, first_event};

    ghost gives = { λ s rows ctx. counted_first rows };

    ghost holds = { λ s rows. (s.count ≡ capped (length rows)) × (s.first ≡ first_event rows) };

    fn add(&mut self, _: Global, fields: Record, ctx: Ctx) -> Result<(), NoMemory> {
        if self.first.is_none() {
            self.first = Some(Event::Rec(fields, ctx));
        }
        self.count = next_count(self.count);
        Ok(())
    }

    fn finish(&mut self, alloc: Global, _: Ctx, out: &mut Events) -> Result<(), NoMemory> {
        match self.first.take() {
            Some(Event::Rec(fields, ctx)) => {
                let mut fields = fields;
                fields.put_first(b"count", count_value(alloc, self.count))?;
                out.push(Event::Rec(fields, ctx))
            }
            _ => Ok(()),
        }
    }
}

impl OfGroup for CountedFirst {
    fn fresh(&self, _: Global) -> Result<Self, NoMemory> {
        Ok(CountedFirst {
            first: None,
            count: 0,
        })
    }
}
