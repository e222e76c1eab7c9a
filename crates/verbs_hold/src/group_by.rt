//! `group-by`: the records group by group, by the texts of the named fields.
ghost use Rattle.std.specs.Prelude.{◌≡◌, []};
ghost use Rattle.verbs_hold.specs.GroupBy.{group_by};

use crate::held_rows::HeldRows;
use group_state::OfGroups;
use mlr_event::Names;
use mlr_groups::GroupBy;
use std::alloc::Global;
use verbs_base::Stateful;

/// The verb `group-by`, whose options are the names of the grouping fields.
pub type GroupByVerb = OfGroups<HeldRows>;

/// The verb before the first record. It doesn't allocate.
pub fn group_by_verb(alloc: Global, names: Names) -> GroupByVerb
    ensures meaning { ⟦<GroupByVerb as Stateful>⟧.meaning result ≡ group_by names }
    ensures represents { ⟦<GroupByVerb as Stateful>⟧.represents result [] }
{
    OfGroups::new(alloc, GroupBy::Texts(names), HeldRows::new(alloc))
}
