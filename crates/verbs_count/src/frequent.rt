//! `most-frequent` and `least-frequent`: the groups of the greatest or the least number of records.
ghost use Rattle.std.specs.Prelude.{◌≡◌, ◌++◌, [], List, IfOk, OnOk};
ghost use Rattle.std.specs.List.{flat_map};
ghost use Rattle.mlr_event.specs.declared.event.Ctx.{Ctx as SpecCtx};
ghost use Rattle.mlr_sort.specs.InOrder.{in_order};
ghost use Rattle.verbs_base.specs.Records.{Row, events_of};
ghost use Rattle.group_state.specs.Represents.{EachHolds};
ghost use Rattle.verbs_count.specs.Frequent.{by_count, frequent};
ghost use Rattle.verbs_count.specs.GroupCount.{GroupHolds, group_gives};

use crate::group_counts::{Counting, GroupCount};
use group_state::{AtEnd, GroupStates, OfAll};
use mlr_event::{Ctx, Events, Names};
use mlr_groups::GroupBy;
use mlr_record::Record;
use mlr_sort::sort_in_order;
use mlr_spec::NoMemory;
use mlr_value::Bytes;
use std::alloc::Global;
use std::cmp::Ordering;
use verbs_base::Stateful;

/// The options of `most-frequent` and `least-frequent`.
#[derive(Drop)]
pub struct Frequent {
    pub names: Names,
    /// `-b`: the groups are given without their counts.
    pub brief: bool,
    /// The number of groups that are given.
    pub count: u64,
    /// The name of the field that has the count.
    pub output: Bytes,
}

/// The verbs `most-frequent` and `least-frequent`.
pub type FrequentVerb = OfAll<FrequentGroups>;

impl Frequent {
    /// A copy. It allocates for the names.
    pub fn copy(&self, alloc: Global) -> Result<Self, NoMemory>
        ensures { IfOk result (λ copy. copy ≡ self.now) }
    {
        Ok(Frequent {
            names: self.names.copy()?,
            brief: self.brief,
            count: self.count,
            output: Bytes::copy_of(alloc, self.output.as_slice())?,
        })
    }

    /// The verb before the first record, which gives the groups of the least counts, or of the greatest. It allocates for
    /// its options.
    pub fn verb(self, alloc: Global, least: bool) -> Result<FrequentVerb, NoMemory>
        ensures meaning { IfOk result (λ made. ⟦<FrequentVerb as Stateful>⟧.meaning made
            ≡ frequent least self) }
        ensures represents { IfOk result (λ made. ⟦<FrequentVerb as Stateful>⟧.represents made []) }
    {
        let Frequent {
            names,
            brief,
            count,
            output,
        } = self;
        let by = GroupBy::Texts(names.copy()?);
        let counting = Counting {
            groups: names,
            output: if brief { None } else { Some(output) },
        };
        let state = FrequentGroups {
            least,
            count,
            groups: GroupStates::new(alloc, by, GroupCount::new(alloc, counting)?),
        };
        Ok(OfAll { alloc, state })
    }
}

/// The groups so far, each with the number of its records.
#[derive(Drop)]
pub struct FrequentGroups {
    least: bool,
    /// The number of groups that are given.
    count: u64,
    groups: GroupStates<GroupCount>,
}

impl AtEnd for FrequentGroups {
    ghost use Rattle.group_state.specs.Represents.{HoldGroups, common_of, none_of};
    ghost use Rattle.verbs_count.specs.Frequent.{frequent_rows};
    ghost use Rattle.verbs_count.specs.GroupCount.{GroupHolds, group_gives};

    ghost gives = { λ s. frequent_rows s.least s.count (common_of s.groups)
        (group_gives (none_of s.groups)) };

    ghost holds = { λ s rows. HoldGroups group_gives GroupHolds (common_of s.groups)
        (group_gives (none_of s.groups)) rows s.groups };

    fn add(&mut self, alloc: Global, fields: Record, ctx: Ctx) -> Result<(), NoMemory> {
        self.groups.add(alloc, fields, ctx)?;
        Ok(())
    }

    fn finish(&mut self, alloc: Global, ctx: Ctx, out: &mut Events) -> Result<(), NoMemory> {
        let mut states = self.groups.take_states(alloc);
        let least = self.least;
        sort_groups(least, &mut states)?;
        states.truncate(self.count as usize);
        give_each(alloc, states, ctx, out)
    }
}

/// Sorts the groups, where those that tie keep their order.
fn sort_groups(least: bool, states: &mut Vec<GroupCount>) -> Result<(), NoMemory>
    ensures { OnOk result (states.new.items
        ≡ in_order (λ state other. by_count least state.count other.count) states.old.items) }
{
    sort_in_order(
        states,
        |state: &GroupCount, other: &GroupCount| -> Ordering
            ensures { result ≡ by_count least state.now.count other.now.count }
        { compare(least, state, other) },
    )
}

/// How two groups compare: the one of the greater count comes first, or of the less.
fn compare(least: bool, state: &GroupCount, other: &GroupCount) -> Ordering
    ensures { result ≡ by_count least state.now.count other.now.count }
{
    if least {
        state.count().cmp(&other.count())
    } else {
        other.count().cmp(&state.count())
    }
}

/// Appends what each group gives.
fn give_each(
    alloc: Global,
    states: Vec<GroupCount>,
    ctx: Ctx,
    out: &mut Events,
) -> Result<(), NoMemory>
    requires { (late : List Row → SpecCtx → List Row) × (groups : List (List Row))
        × EachHolds group_gives GroupHolds late states.items groups }
    ensures { OnOk result ((late : List Row → SpecCtx → List Row) (groups : List (List Row))
        → EachHolds group_gives GroupHolds late states.items groups
        → out.new ≡ out.old ++ events_of (flat_map (λ group. late group ctx) groups)) }
{
    for state in states {
        let mut state = state;
        state.finish(alloc, ctx, out)?;
    }
    Ok(())
}
