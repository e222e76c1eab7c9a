//! The number of groups, which `count -n`, `count-distinct -n` and `uniq -n` give.
ghost use Rattle.std.specs.Prelude.{◌≡◌, []};
ghost use Rattle.verbs_count.specs.GroupNumber.{group_number};

use crate::record_counts::record_of_count;
use group_state::{AtEnd, OfAll};
use mlr_event::{Ctx, Event, Events};
use mlr_groups::{GroupBy, Groups};
use mlr_record::Record;
use mlr_spec::NoMemory;
use mlr_value::Bytes;
use std::alloc::Global;
use verbs_base::Stateful;

/// A verb that gives the number of groups alone.
pub type GroupNumberVerb = OfAll<NumberOfGroups>;

/// The verb before the first record, which gives the number of groups in a field of this name. It doesn't allocate.
pub fn group_number(alloc: Global, by: GroupBy, output: Bytes) -> GroupNumberVerb
    ensures meaning { ⟦<GroupNumberVerb as Stateful>⟧.meaning result ≡ group_number by output }
    ensures represents { ⟦<GroupNumberVerb as Stateful>⟧.represents result [] }
{
    let groups = Groups::new(alloc, by);
    OfAll {
        alloc,
        state: NumberOfGroups { output, groups },
    }
}

/// The groups so far.
#[derive(Drop)]
pub struct NumberOfGroups {
    output: Bytes,
    groups: Groups,
}

impl AtEnd for NumberOfGroups {
    ghost use Rattle.std.specs.Prelude.{length};
    ghost use Rattle.mlr_groups.specs.Grouping.{groups_in};
    ghost use Rattle.mlr_groups.specs.Represents.{GroupsOf};
    ghost use Rattle.verbs_base.specs.Records.{records};
    ghost use Rattle.verbs_count.specs.RecordCount.{count_row};

    ghost gives = { λ s rows ctx. count_row s.output
        (length (groups_in s.groups.by (records rows))) ctx };

    ghost holds = { λ s rows. GroupsOf s.groups.by (records rows) s.groups };

    fn add(&mut self, _: Global, fields: Record, _: Ctx) -> Result<(), NoMemory> {
        self.groups.enter(&fields)?;
        Ok(())
    }

    fn finish(&mut self, alloc: Global, ctx: Ctx, out: &mut Events) -> Result<(), NoMemory> {
        let number = self.groups.len() as u64;
        out.push(Event::Rec(record_of_count(alloc, self.output.as_slice(), number)?, ctx))
    }
}
