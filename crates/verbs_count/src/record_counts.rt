//! The number of records, which `count` without grouping fields gives.
ghost use Rattle.std.specs.Prelude.{◌≡◌, [], IfOk};
ghost use Rattle.verbs_count.specs.RecordCount.{count_record, record_count};

use group_state::{AtEnd, OfAll, count_value};
use mlr_event::{Ctx, Event, Events};
use mlr_groups::next_count;
use mlr_record::Record;
use mlr_spec::NoMemory;
use mlr_value::Bytes;
use std::alloc::Global;
use verbs_base::Stateful;

/// The verb `count` without grouping fields.
pub type RecordCountVerb = OfAll<RecordCount>;

/// The verb before the first record, which gives the number of records in a field of this name. It doesn't allocate.
pub fn record_count(alloc: Global, output: Bytes) -> RecordCountVerb
    ensures meaning { ⟦<RecordCountVerb as Stateful>⟧.meaning result ≡ record_count output }
    ensures represents { ⟦<RecordCountVerb as Stateful>⟧.represents result [] }
{
    OfAll {
        alloc,
        state: RecordCount { output, count: 0 },
    }
}

/// The number of records.
#[derive(Drop)]
pub struct RecordCount {
    output: Bytes,
    count: u64,
}

impl AtEnd for RecordCount {
    ghost use Rattle.std.specs.Prelude.{◌≡◌, length};
    ghost use Rattle.mlr_groups.specs.Tallying.{capped};
    ghost use Rattle.verbs_count.specs.RecordCount.{count_row};

    ghost gives = { λ s rows ctx. count_row s.output (length rows) ctx };

    ghost holds = { λ s rows. s.count ≡ capped (length rows) };

    fn add(&mut self, _: Global, _: Record, _: Ctx) -> Result<(), NoMemory> {
        self.count = next_count(self.count);
        Ok(())
    }

    fn finish(&mut self, alloc: Global, ctx: Ctx, out: &mut Events) -> Result<(), NoMemory> {
        out.push(Event::Rec(
            record_of_count(alloc, self.output.as_slice(), self.count)?,
            ctx,
        ))
    }
}

/// A record of one field, which has this count.
pub(crate) fn record_of_count(alloc: Global, output: &[u8], count: u64) -> Result<Record, NoMemory>
    ensures { IfOk result (λ made. made ≡ count_record output.now count) }
{
    let mut made = Record::new(alloc)?;
    made.push(output, count_value(alloc, count))?;
    Ok(made)
}
