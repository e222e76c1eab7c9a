//! `group-like`: the records group by group, by the names of their fields.
ghost use Rattle.std.specs.Prelude.{◌≡◌, []};
ghost use Rattle.verbs_hold.specs.GroupLike.{group_like};

use crate::held_rows::HeldRows;
use group_state::OfGroups;
use mlr_groups::GroupBy;
use std::alloc::Global;
use verbs_base::Stateful;

/// The verb `group-like`, which has no options.
pub type GroupLikeVerb = OfGroups<HeldRows>;

/// The verb before the first record. It doesn't allocate.
pub fn group_like_verb(alloc: Global) -> GroupLikeVerb
    ensures meaning { ⟦<GroupLikeVerb as Stateful>⟧.meaning result ≡ group_like }
    ensures represents { ⟦<GroupLikeVerb as Stateful>⟧.represents result [] }
{
    OfGroups::new(alloc, GroupBy::Keys, HeldRows::new(alloc))
}
