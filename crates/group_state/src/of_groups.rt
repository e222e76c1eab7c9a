//! Verbs that give records of each group at the end.
ghost use Rattle.std.specs.Prelude.{◌≡◌, []};
ghost use Rattle.group_state.specs.AtEnd.{by_groups};

use crate::at_end::OfGroup;
use crate::group_states::GroupStates;
use mlr_event::{Ctx, Events};
use mlr_groups::GroupBy;
use mlr_record::Record;
use mlr_spec::NoMemory;
use std::alloc::Global;
use verbs_base::Stateful;

/// A verb that gives nothing before the end, and then records of each group, group by group, in the order in which the
/// groups came first.
#[derive(Drop)]
pub struct OfGroups<S> {
    alloc: Global,
    groups: GroupStates<S>,
}

impl<S: OfGroup + Drop> OfGroups<S> {
    /// The verb before the first record. `none` is what is kept of no records. It doesn't allocate.
    pub fn new(alloc: Global, by: GroupBy, none: S) -> Self
        ensures meaning { ⟦<OfGroups<S> as Stateful>⟧.meaning result ≡ by_groups by (S.gives none) }
        ensures represents { ⟦<OfGroups<S> as Stateful>⟧.represents result [] }
    {
        OfGroups {
            alloc,
            groups: GroupStates::new(alloc, by, none),
        }
    }
}

impl<S: OfGroup + Drop> Stateful for OfGroups<S> {
    ghost use Rattle.std.specs.Prelude.{[]};
    ghost use Rattle.std.specs.List.{flat_map};
    ghost use Rattle.verbs_base.specs.Laws.{never-shuts};
    ghost use Rattle.group_state.specs.AtEnd.{by_groups};
    ghost use Rattle.group_state.specs.Grouped.{grouped};
    ghost use Rattle.group_state.specs.Represents.{HoldGroups, common_of, none_of};

    ghost meaning = { λ s. by_groups (common_of s.groups) (S.gives (none_of s.groups)) };

    ghost represents = { λ s before. HoldGroups S.gives S.holds (common_of s.groups)
        (S.gives (none_of s.groups)) before s.groups };

    ghost shuts = { λ s. never-shuts (λ before fields. []) (λ rows ctx. flat_map
        (λ group. S.gives (none_of s.groups) group ctx) (grouped (common_of s.groups) rows)) };

    fn take(&mut self, fields: Record, ctx: Ctx, _: &mut Events) -> Result<(), NoMemory> {
        self.groups.add(self.alloc, fields, ctx)?;
        Ok(())
    }

    fn finish(&mut self, ctx: Ctx, out: &mut Events) -> Result<(), NoMemory> {
        self.groups.finish(self.alloc, ctx, out)
    }

    fn is_shut(&self) -> bool {
        false
    }

    fn never_shuts(&self) -> bool {
        true
    }
}
