//! Verbs that give records of each group at the end, and pass a record in no group.
ghost use Rattle.std.specs.Prelude.{◌≡◌, []};
ghost use Rattle.group_state.specs.AtEnd.{by_groups_or_pass};

use crate::at_end::OfGroup;
use crate::group_states::GroupStates;
use mlr_event::{Ctx, Event, Events};
use mlr_groups::GroupBy;
use mlr_record::Record;
use mlr_spec::NoMemory;
use std::alloc::Global;
use verbs_base::Stateful;

/// A verb that gives records of each group at the end, in the order in which the groups came first. A record in no group
/// passes at once.
#[derive(Drop)]
pub struct OfGroupsOrPass<S> {
    alloc: Global,
    groups: GroupStates<S>,
}

impl<S: OfGroup + Drop> OfGroupsOrPass<S> {
    /// The verb before the first record. `none` is what is kept of no records. It doesn't allocate.
    pub fn new(alloc: Global, by: GroupBy, none: S) -> Self
        ensures meaning { ⟦<OfGroupsOrPass<S> as Stateful>⟧.meaning result
            ≡ by_groups_or_pass by (S.gives none) }
        ensures represents { ⟦<OfGroupsOrPass<S> as Stateful>⟧.represents result [] }
    {
        OfGroupsOrPass {
            alloc,
            groups: GroupStates::new(alloc, by, none),
        }
    }
}

impl<S: OfGroup + Drop> Stateful for OfGroupsOrPass<S> {
    ghost use Rattle.std.specs.Prelude.{is_none};
    ghost use Rattle.std.specs.List.{flat_map};
    ghost use Rattle.mlr_groups.specs.Grouping.{common_in};
    ghost use Rattle.verbs_base.specs.Laws.{never-shuts};
    ghost use Rattle.verbs_base.specs.Records.{passes};
    ghost use Rattle.group_state.specs.AtEnd.{by_groups_or_pass};
    ghost use Rattle.group_state.specs.Grouped.{grouped};
    ghost use Rattle.group_state.specs.Represents.{HoldGroups, common_of, none_of};

    ghost meaning = { λ s. by_groups_or_pass (common_of s.groups) (S.gives (none_of s.groups)) };

    ghost represents = { λ s before. HoldGroups S.gives S.holds (common_of s.groups)
        (S.gives (none_of s.groups)) before s.groups };

    ghost shuts = { λ s. never-shuts
        (λ before. passes (λ fields. is_none (common_in (common_of s.groups) fields)))
        (λ rows ctx. flat_map (λ group. S.gives (none_of s.groups) group ctx)
        (grouped (common_of s.groups) rows)) };

    fn take(&mut self, fields: Record, ctx: Ctx, out: &mut Events) -> Result<(), NoMemory> {
        match self.groups.add(self.alloc, fields, ctx)? {
            Some(fields) => out.push(Event::Rec(fields, ctx)),
            None => Ok(()),
        }
    }

    fn finish(&mut self, ctx: Ctx, out: &mut Events) -> Result<(), NoMemory> {
        self.groups.finish(self.alloc, ctx, out)
    }

    fn is_shut(&self) -> bool {
        false
    }

    fn never_shuts(&self) -> bool {
        true
    }
}
