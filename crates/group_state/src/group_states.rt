//! What is kept of each group of records.
ghost use Rattle.std.specs.Prelude.{◌≡◌, ◌++◌, ◌∷◌, [], if◌then◌else◌, List, Some, None, is_none, IfOk, OnOk};
ghost use Rattle.std.specs.List.{flat_map};
ghost use Rattle.mlr_event.specs.declared.event.Ctx.{Ctx as SpecCtx};
ghost use Rattle.mlr_groups.specs.declared.group_by.GroupBy.{GroupBy as SpecGroupBy};
ghost use Rattle.mlr_groups.specs.Grouping.{common_in};
ghost use Rattle.verbs_base.specs.Records.{Row, events_of};
ghost use Rattle.group_state.specs.Grouped.{grouped};
ghost use Rattle.group_state.specs.Represents.{EachHolds, HoldGroups, common_of, none_of};

use crate::at_end::OfGroup;
use mlr_event::{Ctx, Events};
use mlr_groups::{GroupBy, Groups};
use mlr_record::Record;
use mlr_spec::NoMemory;
use std::alloc::Global;
use std::mem::replace;

/// What is kept of each group of records, in the order in which the groups came first.
#[derive(Drop)]
pub struct GroupStates<S> {
    groups: Groups,
    /// What is kept of no records, of which that of a new group is made.
    none: S,
    states: Vec<S>,
}

impl<S: OfGroup + Drop> GroupStates<S> {
    /// No groups yet. `none` is what is kept of no records. It doesn't allocate.
    pub fn new(alloc: Global, by: GroupBy, none: S) -> Self
        ensures held { HoldGroups S.gives S.holds by (S.gives none) [] result }
        ensures common { common_of result ≡ by }
        ensures none { none_of result ≡ none }
    {
        GroupStates {
            groups: Groups::new(alloc, by),
            none,
            states: Vec::new(alloc),
        }
    }

    /// Adds a record to its group, or returns it if it is in none.
    pub fn add(
        &mut self,
        alloc: Global,
        fields: Record,
        ctx: Ctx,
    ) -> Result<Option<Record>, NoMemory>
        requires { (by : SpecGroupBy) × (late : List Row → SpecCtx → List Row) × (before : List Row)
            × HoldGroups S.gives S.holds by late before self.old }
        ensures held { OnOk result ((by : SpecGroupBy) (late : List Row → SpecCtx → List Row)
            (before : List Row) → HoldGroups S.gives S.holds by late before self.old
            → HoldGroups S.gives S.holds by late (before ++ (fields, ctx) ∷ []) self.new) }
        ensures left { IfOk result (λ left. left
            ≡ (if is_none (common_in (common_of self.old) fields) then Some fields else None)) }
        ensures common { common_of self.new ≡ common_of self.old }
        ensures none { none_of self.new ≡ none_of self.old }
    {
        let Some(place) = self.groups.enter(&fields)? else {
            return Ok(Some(fields));
        };
        if place >= self.states.len() {
            self.states.push(self.none.fresh(alloc)?)?;
        }
        self.states[place].add(alloc, fields, ctx)?;
        Ok(None)
    }

    /// Appends the records that each group gives at the end, group by group. It is called once.
    pub(crate) fn finish(
        &mut self,
        alloc: Global,
        ctx: Ctx,
        out: &mut Events,
    ) -> Result<(), NoMemory>
        requires { (by : SpecGroupBy) × (late : List Row → SpecCtx → List Row) × (before : List Row)
            × HoldGroups S.gives S.holds by late before self.old }
        ensures given { OnOk result ((by : SpecGroupBy) (late : List Row → SpecCtx → List Row)
            (before : List Row) → HoldGroups S.gives S.holds by late before self.old
            → out.new ≡ out.old ++ events_of (flat_map (λ group. late group ctx)
            (grouped by before))) }
        ensures common { common_of self.new ≡ common_of self.old }
        ensures none { none_of self.new ≡ none_of self.old }
    {
        let mut states = self.take_states(alloc);
        for state in states.iter_mut() {
            state.finish(alloc, ctx, out)?;
        }
        Ok(())
    }

    /// What is kept of each group, which is taken out. It doesn't allocate.
    pub fn take_states(&mut self, alloc: Global) -> Vec<S>
        ensures states { (by : SpecGroupBy) (late : List Row → SpecCtx → List Row)
            (before : List Row) → HoldGroups S.gives S.holds by late before self.old
            → EachHolds S.gives S.holds late result.items (grouped by before) }
        ensures common { common_of self.new ≡ common_of self.old }
        ensures none { none_of self.new ≡ none_of self.old }
    {
        replace(&mut self.states, Vec::new(alloc))
    }
}
