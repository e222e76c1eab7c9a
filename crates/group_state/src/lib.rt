//! Verbs that hold records back until the end: what they give of all records (`AtEnd`, `OfAll`), and what they give of
//! each group (`OfGroups`; `OfGroupsOrPass` passes a record in no group).
#![tactic(auto)]

mod at_end;
mod counts;
mod group_states;
mod of_groups;
mod of_groups_or_pass;

pub use at_end::{AtEnd, OfAll, OfGroup};
pub use counts::count_value;
pub use group_states::GroupStates;
pub use of_groups::OfGroups;
pub use of_groups_or_pass::OfGroupsOrPass;
