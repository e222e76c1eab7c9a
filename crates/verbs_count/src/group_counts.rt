//! The number of records of each group, which `count` and `count-distinct` give.
ghost use Rattle.std.specs.Prelude.{◌≡◌, ◌∷◌, [], IfOk};
ghost use Rattle.verbs_count.specs.GroupCount.{counted_group, group_count};

use group_state::{AtEnd, OfGroup, OfGroups, count_value};
use mlr_event::{Ctx, Event, Events, Names};
use mlr_groups::{GroupBy, next_count};
use mlr_record::Record;
use mlr_spec::NoMemory;
use mlr_value::Bytes;
use std::alloc::Global;
use std::sync::Arc;
use verbs_base::{Stateful, pick_named};

/// By which fields records are counted, and what is given of a group.
#[derive(Drop)]
pub struct Counting {
    pub groups: Names,
    /// The name of the field that has the count, if the count is given.
    pub output: Option<Bytes>,
}

/// A verb that gives the number of records of each group.
pub type GroupCountVerb = OfGroups<GroupCount>;

impl Counting {
    /// A copy. It allocates for the names.
    pub fn copy(&self, alloc: Global) -> Result<Self, NoMemory>
        ensures { IfOk result (λ copy. copy ≡ self.now) }
    {
        Ok(Counting {
            groups: self.groups.copy()?,
            output: match &self.output {
                Some(name) => Some(Bytes::copy_of(alloc, name.as_slice())?),
                None => None,
            },
        })
    }
}

/// The verb before the first record. It allocates for its options, which all groups share.
pub fn group_count(alloc: Global, options: Counting) -> Result<GroupCountVerb, NoMemory>
    ensures meaning { IfOk result (λ made. ⟦<GroupCountVerb as Stateful>⟧.meaning made
        ≡ group_count options) }
    ensures represents { IfOk result (λ made. ⟦<GroupCountVerb as Stateful>⟧.represents made []) }
{
    let by = GroupBy::Texts(options.groups.copy()?);
    Ok(OfGroups::new(alloc, by, GroupCount::new(alloc, options)?))
}

/// The number of records of a group, and the grouping fields of its first record.
#[derive(Drop)]
pub struct GroupCount {
    options: Arc<Counting>,
    first: Option<Record>,
    count: u64,
}

impl GroupCount {
    /// No records yet. It allocates for its options, which all groups share.
    pub(crate) fn new(alloc: Global, options: Counting) -> Result<Self, NoMemory>
        ensures gives { IfOk result (λ made. ⟦<GroupCount as AtEnd>⟧.gives made
            ≡ (λ rows ctx. (counted_group options rows, ctx) ∷ [])) }
        ensures holds { IfOk result (λ made. ⟦<GroupCount as AtEnd>⟧.holds made []) }
    {
        Ok(GroupCount {
            options: Arc::new(alloc, options)?,
            first: None,
            count: 0,
        })
    }

    /// How many records there are.
    pub(crate) fn count(&self) -> u64
        ensures { result ≡ self.now.count }
    {
        self.count
    }
}

impl AtEnd for GroupCount {
    ghost use Rattle.verbs_count.specs.GroupCount.{GroupHolds, group_gives};

    ghost gives = { group_gives };

    ghost holds = { GroupHolds };

    fn add(&mut self, _: Global, fields: Record, _: Ctx) -> Result<(), NoMemory> {
        if self.first.is_none() {
            self.first = Some(pick_named(&self.options.groups, fields));
        }
        self.count = next_count(self.count);
        Ok(())
    }

    fn finish(&mut self, alloc: Global, ctx: Ctx, out: &mut Events) -> Result<(), NoMemory> {
        let mut made = match self.first.take() {
            Some(fields) => fields,
            None => Record::new(alloc)?,
        };
        if let Some(name) = &self.options.output {
            made.put(name.as_slice(), count_value(alloc, self.count))?;
        }
        out.push(Event::Rec(made, ctx))
    }
}

impl OfGroup for GroupCount {
    fn fresh(&self, _: Global) -> Result<Self, NoMemory> {
        Ok(GroupCount {
            options: self.options.clone()?,
            first: None,
            count: 0,
        })
    }
}
